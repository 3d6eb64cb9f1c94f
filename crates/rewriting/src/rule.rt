// A rule, the records of its list, and how many parameters it has.
ghost use Rattle.std.specs.Prelude.{◌-◌, ◌≤◌};
ghost use Rattle.std.specs.Iterator.{at_most};
ghost use Rattle.rewriting.specs.Plans.{Sound, HoldsForms};
ghost use Rattle.rewriting.specs.inside.Listed.{Counted, Gives, Starts};
ghost use Rattle.rewriting.specs.Clauses.{ByteOfClause, RecordAtClause, CountOfClause, ParametersInClause};

use crate::interval::shifts;
use crate::kind::Kind;
use crate::step::{Interval, Plan, Record};

// Bytes of a record.
pub const RECORD_BYTES: usize = 8;

// Records of a rule, at most.
const RECORDS: usize = 64;

// A rule: its list, and a sound plan of it.
#[derive(Clone, Copy)]
pub struct Rule<'a> {
    pub list: &'a [u8],
    pub plan: Plan,
    pub ghost sound: { Sound list.now plan },
}

// A rule with the table of its records' forms.
#[derive(Clone, Copy)]
pub struct Tabled<'list, 'forms> {
    pub rule: Rule<'list>,
    pub forms: &'forms [u64],
    pub ghost holds: { HoldsForms rule.list.now rule.plan forms.now },
}

// Byte `i` of record `k`; zero past the list's end.
#[tactic(auto, unfolding(crate::specs::Decode::byte_of))]
pub fn byte_of(list: &[u8], k: usize, i: usize) -> u8
    ensures { ByteOfClause list.now k i result }
{
    let at = RECORD_BYTES.saturating_mul(k).saturating_add(i);
    list.get(at).copied().unwrap_or(0)
}

// Record `k` of the list.
pub fn record_at(list: &[u8], k: usize) -> Record
    ensures { RecordAtClause list.now k result }
{
    let interval = Interval {
        kind: byte_of(list, k, 3),
        low: byte_of(list, k, 4),
        high: byte_of(list, k, 5),
    };
    Record {
        kind: byte_of(list, k, 0).into(),
        left: byte_of(list, k, 1),
        right: byte_of(list, k, 2),
        interval,
    }
}

// How many parameters a record has.
pub fn count_of(record: Record) -> usize
    ensures { CountOfClause «record» result }
{
    match record.kind {
        Kind::True | Kind::False | Kind::And | Kind::Xor => 0,
        Kind::Signal | Kind::Next | Kind::Previous => 1,
        Kind::Until | Kind::Since | Kind::Other(_) => shifts(record.interval),
    }
}

// How many parameters the first `n` records have; of more than 64 the first 64 count, for no rule has more.
pub fn parameters_in(list: &[u8], n: usize) -> usize
    ensures { ParametersInClause list.now n result }
{
    let last = n.min(RECORDS);
    let mut sum = 0;
    for k in 0..last {
        sum += count_of(record_at(list, k));
    }
    sum
}

// The records of a rule that are left, from record k on, whose parameters begin at first.
#[derive(Drop)]
pub(crate) struct Records<'a> {
    list: &'a [u8],
    records: usize,
    k: usize,
    first: usize,
    ghost counted: { Counted list.now records k first },
}

impl<'a> Records<'a> {
    // All records of a rule.
    pub(crate) fn of(list: &'a [u8], records: usize) -> Records<'a>
        requires { records ≤ 64 }
        ensures { Starts list.now records result.list.now result.records result.k }
    {
        Records {
            list,
            records,
            k: 0,
            first: 0,
        }
    }
}

// Each record with its number and where its parameters begin.
impl<'a> Iterator for Records<'a> {
    type Item = (usize, Record, usize);

    ghost next_gives = { λ s o t. Gives s.list.now s.records s.k o t.list.now t.records t.k };

    ghost remaining = { λ s. at_most (s.records - s.k) };

    fn next(&mut self) -> Option<(usize, Record, usize)> {
        let k = self.k;
        if k >= self.records {
            return None;
        }
        let first = self.first;
        let record = record_at(self.list, k);
        *self = Records {
            list: self.list,
            records: self.records,
            k: k + 1,
            first: first + count_of(record),
        };
        Some((k, record, first))
    }
}
