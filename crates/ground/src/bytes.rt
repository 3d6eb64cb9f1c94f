// Bytes of a slice, zero past its end: one by one, as numbers with the lowest byte first, and zeros behind a prefix.
ghost use Rattle.std.specs.Prelude.{◌≡◌};
ghost use Rattle.ground.specs.Bytes.{zeros_from};
ghost use Rattle.ground.specs.Clauses.{ByteClause, LittleClause, ZerosFromClause};

// The byte at `at`.
pub fn byte(bytes: &[u8], at: usize) -> u8
    ensures { ByteClause bytes.now at result }
{
    bytes.get(at).copied().unwrap_or(0)
}

// The number of the N bytes from `at` on, the lowest first; of the first 8 where there are more.
pub fn little<const N: usize>(bytes: &[u8], at: usize) -> u64
    ensures { LittleClause N bytes.now at result }
{
    // Past the list's end there is nothing to add to `at`.
    if bytes.len() <= at {
        return 0;
    }
    let count = N.min(8);
    let mut number = 0;
    for k in (0..count).rev() {
        number = 256 * number + u64::from(byte(bytes, at + k));
    }
    number
}

// Whether every byte is zero.
fn all_zeros(bytes: &[u8]) -> bool
    ensures { result ≡ zeros_from bytes.now 0 }
{
    bytes.iter().all(|byte| *byte == 0)
}

// Whether every byte from `from` on is zero. It hands on the part from there, whose length a proof can follow.
#[tactic(auto, using(std::proofs::lemmas::List::take_rest, crate::proofs::ByteLaws::zeros_past))]
pub fn zeros_from(bytes: &[u8], from: usize) -> bool
    ensures { ZerosFromClause bytes.now from result }
{
    bytes.len() <= from || all_zeros(&bytes[from..])
}
