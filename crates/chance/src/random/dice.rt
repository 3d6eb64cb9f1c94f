// Numbers by chance, the same at each run: each case has its number, and each of its records dice of its own.
ghost use Rattle.std.specs.Prelude.{◌≤◌};

// The dice of a record of a case, or of the case itself, where the record is none of it.
#[derive(Clone, Copy)]
pub(crate) struct Dice {
    pub(crate) case: u64,
    pub(crate) record: u64,
}

// A number below 2147483647 that looks like any other.
fn mixed(n: u64) -> u64 {
    let next = n % 2147483647 * 48271 % 2147483647;
    (next ^ (next >> 15)) % 2147483647 * 69621 % 2147483647
}

impl Dice {
    // A number below so many, by a die.
    pub(crate) fn roll(self, die: u64, sides: u64) -> u64 {
        if sides == 0 {
            return 0;
        }
        let place = self.case % 1000000 * 1000 + self.record % 50 * 20 + die % 20;
        mixed(mixed(place)) / 16 % sides
    }

    // A byte below so many.
    pub(crate) fn byte(self, die: u64, sides: u64) -> u8 {
        (self.roll(die, sides) % 256) as u8
    }

    // Any face of a die of many sides.
    pub(crate) fn face(self, die: u64) -> u64 {
        self.roll(die, 100000000)
    }
}

// How many records a list gets.
pub(crate) fn records(face: u64, least: u64, sides: u64) -> usize
    ensures { result ≤ 200 }
{
    if sides == 0 {
        return 0;
    }
    (least % 100 + face % sides % 100) as usize
}

// A small number with a sign, as 16 bits have it, now and then any of them.
pub(crate) fn small(face: u64) -> u16 {
    if face % 16 == 0 {
        return (face / 16 % 65536) as u16;
    }
    ((face / 16 % 12 + 65534) % 65536) as u16
}
