// The terms of a row.
ghost use Rattle.std.specs.Prelude.{◌≡◌, ◌-◌, ◌≤◌};
ghost use Rattle.std.specs.Iterator.{at_most};
ghost use Rattle.forms.specs.inside.Steps.{Next, Gives, Lone};

// The first term of the row from `from` on and before `to`.
pub(crate) fn next_term(row: &[u64; 64], from: usize, to: usize) -> Option<usize>
    requires { to ≤ 4096 }
    ensures { Next row.now from to result }
{
    let mut k = from;
    // This stays a while loop: where nothing is left of a word, it jumps to the next one.
    while k < to {
        let left = row[k / 64] >> (k % 64);
        if left % 2 == 1 {
            return Some(k);
        }
        k = if left == 0 { (k / 64 + 1) * 64 } else { k + 1 };
    }
    None
}

// What is left of a row's terms, the lowest first: those from `from` on.
#[derive(Drop)]
pub(crate) struct Terms<'a> {
    row: &'a [u64; 64],
    from: usize,
}

impl<'a> Terms<'a> {
    // All terms of a row.
    pub(crate) fn of(row: &'a [u64; 64]) -> Terms<'a>
        ensures { (result.row.now ≡ row.now) × (result.from ≡ 0) }
    {
        Terms { row, from: 0 }
    }
}

impl<'a> Iterator for Terms<'a> {
    type Item = usize;

    ghost next_gives = { λ s o t. Gives s.row.now s.from o t.row.now t.from };

    ghost remaining = { λ s. at_most (4096 - s.from) };

    fn next(&mut self) -> Option<usize> {
        let k = next_term(self.row, self.from, 4096)?;
        self.from = k + 1;
        Some(k)
    }
}

// The parameter that the row's form is, or is the negation of.
pub(crate) fn lone(row: &[u64; 64]) -> Option<usize>
    ensures { Lone row.now result }
{
    let k = next_term(row, 1, 4096)?;
    if next_term(row, k + 1, 4096).is_some() {
        return None;
    }
    (0..12).find(|p| k == 1 << *p)
}
