// What one row is made from.
ghost use Rattle.std.specs.Prelude.{◌≡◌, ◌≤◌, ◌<◌};

use crate::interval::{inside, inside_now, moved};
use crate::kind::Kind;

// The interval of a record, from its bytes: which kind of interval it is, and its ends. Its kind stays a byte, since
// every kind is read alike.
#[derive(Clone, Copy)]
pub struct Interval {
    pub kind: u8,
    pub low: u8,
    pub high: u8,
}

// A record of a rule, from its bytes.
#[derive(Clone, Copy)]
pub struct Record {
    pub kind: Kind,
    pub left: u8,
    pub right: u8,
    pub interval: Interval,
}

// A record with its first parameter and a shift, of m parameters, at a record of the log, and the time of the record
// beside it, if there is one.
#[derive(Clone, Copy)]
pub struct Step {
    pub record: Record,
    pub first: usize,
    pub shift: usize,
    pub m: usize,
    pub here: u32,
    pub signals: u16,
    pub neighbour: Option<u32>,
    ghost few: { m ≤ 12 },
    ghost within: { first ≤ 12 },
    ghost byte: { shift < 256 },
}

impl Step {
    ghost use Rattle.rewriting.specs.inside.Steps.{Near, sees_neighbour, sees_itself, moved_in, moved_of, at_shift};

    // Whether there is a record beside this one, in the interval.
    pub(crate) fn sees_neighbour(self) -> bool
        ensures { result ≡ sees_neighbour self }
    {
        self.neighbour
            .is_some_and(|other| inside(self.record.interval, self.here, other))
    }

    // Whether the record here is in its own interval: 0 is in the shifted interval.
    pub(crate) fn sees_itself(self) -> bool
        ensures { result ≡ sees_itself self }
    {
        inside_now(self.record.interval, self.shift, self.here)
    }

    // What the gap to the record beside makes of the shift; none where it is gone, or there is no record.
    pub(crate) fn moved(self) -> Option<usize>
        ensures { (moved_of result ≡ moved_in self) × Near result }
    {
        self.neighbour.and_then(|other| moved(self.record.interval, self.shift, self.here, other))
    }

    // The step at shift n. A struct with ghost fields takes no `..self`.
    pub(crate) fn at_shift(self, n: usize) -> Step
        requires { n < 256 }
        ensures { (h : n < 256) × (result ≡ at_shift self n h) }
    {
        let mut turn = self;
        turn.shift = n;
        turn
    }
}

// How many records the rule has, how many parameters m, and how many places the area has for past rows.
#[derive(Clone, Copy)]
pub struct Plan {
    pub records: usize,
    pub m: usize,
    pub places: usize,
}

// A record of the log as the rule sees it: its time, and the signals that hold in it as bits.
#[derive(Clone, Copy)]
pub struct Moment {
    pub time: u32,
    pub signals: u16,
}
