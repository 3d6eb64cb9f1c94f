// The parts that rows are made of.
ghost use Rattle.rewriting.specs.inside.Steps.{NowOr};
ghost use Rattle.rewriting.specs.Clauses.{SignalClause};

use crate::step::Step;
use forms::area::Rows;
use forms::rows::or;
use forms::table::put_in;

// Until and since: right with the rows put in, if 0 is in the shifted interval, or the second part.
pub(crate) fn now_or(step: Step, right: [u64; 64], rows: Rows<'_>, second: [u64; 64]) -> [u64; 64]
    ensures { NowOr step right rows.entry second result }
{
    if step.sees_itself() {
        or(put_in(right, rows), second)
    } else {
        second
    }
}

// Whether a signal holds, from the word of all of them.
pub fn signal(signals: u16, s: u8) -> bool
    ensures { SignalClause signals s result }
{
    s < 16 && (signals >> s) % 2 == 1
}
