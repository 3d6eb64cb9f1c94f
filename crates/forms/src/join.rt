// Joining two rows, term against term.
ghost use Rattle.std.specs.Prelude.{◌<◌};
ghost use Rattle.ground.specs.Bits.{Words};
ghost use Rattle.forms.specs.inside.Steps.{Joined};
ghost use Rattle.forms.specs.Clauses.{AndClause};

use crate::scan::Terms;

// Term i with each term of b, added to r: the union of the two is turned over.
fn join_term(r: &mut [u64; 64], b: &[u64; 64], i: usize)
    requires { (i < 4096) × Words 64 r.old }
    ensures { Joined r.old b.now i r.new }
{
    for j in Terms::of(b) {
        let k = i | j;
        r[k / 64] ^= 1 << (k % 64);
    }
}

// The row of the conjunction: term against term, passing over absent terms.
pub fn and(a: [u64; 64], b: [u64; 64]) -> [u64; 64]
    ensures { AndClause a b result }
{
    let mut r = [0; 64];
    for i in Terms::of(&a) {
        join_term(&mut r, &b, i);
    }
    r
}
