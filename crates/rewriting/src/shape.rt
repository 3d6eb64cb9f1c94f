// The rows that a state must have: the parts of check 12 that read the area. Past rows stand from place 0 on, the
// remainder behind the places for them.
ghost use Rattle.std.specs.Prelude.{◌≡◌, true, false, not, ◌&&◌, ◌+◌, ◌^◌, ◌≤◌, ◌<◌};
ghost use Rattle.ground.specs.Fold.{some};
ghost use Rattle.ground.specs.Bits.{bit};
ghost use Rattle.forms.specs.Form.{names as names_of};
ghost use Rattle.forms.specs.Words.{fits as fits_of};
ghost use Rattle.forms.specs.Area.{row_at};
ghost use Rattle.forms.specs.Rows.{OfForm};
ghost use Rattle.rewriting.specs.Shape.{bits_above, zero_row};
ghost use Rattle.rewriting.specs.Clauses.{BitsAboveClause, NotZeroFromClause, WrongRowsClause};

use crate::kind::Kind;
use crate::parts::signal;
use crate::rule::{Records, Rule, count_of};
use crate::step::{Moment, Record};
use forms::area::load;
use forms::rows::{constant, fits, names, parameter};

// A record of a rule of m parameters: where its own begin, how many it has, and those that its rows may name, as bits.
#[derive(Clone, Copy)]
pub(crate) struct Here {
    pub(crate) record: Record,
    pub(crate) first: usize,
    pub(crate) count: usize,
    pub(crate) allowed: usize,
    pub(crate) m: usize,
    ghost few: { m ≤ 12 },
    ghost within: { first + count ≤ m },
    ghost bits: { allowed < 2 ^ 12 },
}

// Whether a row is all zeros.
fn zero_row(row: [u64; 64]) -> bool
    ensures { result ≡ zero_row row }
{
    row == [0; 64]
}

// Whether the row at a place has a bit at or above 2^m.
fn row_above(m: usize, area: &[u64], j: usize) -> bool
    ensures { result ≡ not (fits_of m (row_at area.now j)) }
{
    !fits(load(area, j), m)
}

// Whether a past row or the remainder has a bit at or above 2^m.
pub fn bits_above(places: usize, m: usize, area: &[u64]) -> bool
    ensures { BitsAboveClause places m area.now result }
{
    (0..places).any(|j| row_above(m, area, j)) || row_above(m, area, places)
}

// Whether a past row from some place on is not zero.
pub fn not_zero_from(places: usize, from: usize, area: &[u64]) -> bool
    ensures { NotZeroFromClause places from area.now result }
{
    (0..places).any(|j| from <= j && !zero_row(load(area, j)))
}

// Whether the row names a parameter that is not among the allowed ones.
fn names_other(row: [u64; 64], allowed: usize) -> bool
    requires { allowed < 2 ^ 12 }
    ensures { OfForm (λ m f. some m (λ p. names_of m f p && not (bit allowed p))) row result }
{
    let named = names(row);
    named | allowed != allowed
}

impl Here {
    ghost use Rattle.rewriting.specs.inside.Shapes.{Fitting, widened, RowWrong, RecordWrong};

    // Whether the row of shift n of the record is wrong: a signal's is not its constant, a next's or until's is not
    // itself, or a previous's or since's names a parameter that it may not.
    fn row_wrong(self, n: usize, last: Moment, area: &[u64]) -> bool
        requires { (n < self.count) × Fitting self.m area.now }
        ensures { RowWrong self n last area.now result }
    {
        let row = load(area, self.first + n);
        match self.record.kind {
            Kind::True | Kind::False | Kind::And | Kind::Xor => false,
            Kind::Signal => row != constant(signal(last.signals, self.record.left)),
            Kind::Next | Kind::Until => row != parameter(self.first + n, self.m),
            Kind::Previous | Kind::Since | Kind::Other(_) => names_other(row, self.allowed),
        }
    }

    // Whether one of the record's rows is wrong.
    fn record_wrong(self, last: Moment, area: &[u64]) -> bool
        requires { Fitting self.m area.now }
        ensures { RecordWrong self last area.now result }
    {
        (0..self.count).any(|n| self.row_wrong(n, last, area))
    }

    // The parameters that rows of the next record may name: also this record's, if it looks forward.
    fn widen(self) -> usize
        ensures { result ≡ widened self }
    {
        match self.record.kind {
            Kind::Next | Kind::Until => {
                let own = (1 << self.count) - 1;
                self.allowed | (own << self.first)
            }
            _ => self.allowed,
        }
    }
}

// Whether a past row is not what it must be after the last record.
pub fn wrong_rows(rule: Rule<'_>, last: Moment, area: &[u64]) -> bool
    requires { bits_above rule.plan.places rule.plan.m area.now ≡ false }
    ensures { WrongRowsClause rule.entry.list.now rule.entry.plan last area.now result }
{
    let mut allowed: usize = 0;
    for (_, record, first) in Records::of(rule.list, rule.plan.records) {
        let count = count_of(record);
        let here = Here {
            record,
            first,
            count,
            allowed,
            m: rule.plan.m,
        };
        if here.record_wrong(last, area) {
            return true;
        }
        allowed = here.widen();
    }
    false
}
