// The one account of a record's interval: what is inside, what the gap makes of a shift, how many shifts there are.
ghost use Rattle.std.specs.Prelude.{◌≡◌, ◌≤◌, ◌<◌};
ghost use Rattle.meaning.specs.Interval.{distance, inside as inside_of, shifted};
ghost use Rattle.meaning.specs.Interval.{shifts as shifts_of, moved as moved_by};
ghost use Rattle.rewriting.specs.Decode.{interval_for};
ghost use Rattle.rewriting.specs.Clauses.{EndlessClause};
ghost use Rattle.rewriting.specs.inside.Steps.{moved_of, Near};

use crate::step::Interval;

// Whether an interval has no upper end.
#[tactic(auto, unfolding(crate::specs::Decode::endless))]
pub fn endless(interval: Interval) -> bool
    ensures { EndlessClause interval result }
{
    interval.high == 255
}

// The minutes between two times.
#[tactic(auto, unfolding(meaning::specs::Interval::distance))]
fn apart(here: u32, other: u32) -> usize
    ensures { (result ≡ distance here other) × (result < 4294967296) }
{
    here.abs_diff(other) as usize
}

// Whether the other record, seen from the one here, is in the interval.
pub(crate) fn inside(interval: Interval, here: u32, other: u32) -> bool
    ensures { result ≡ inside_of (interval_for interval) here other }
{
    let gap = apart(here, other);
    interval.low as usize <= gap && (endless(interval) || gap <= interval.high as usize)
}

// Whether the record here is in its own interval with a shift: 0 is in the shifted interval.
pub(crate) fn inside_now(interval: Interval, shift: usize, here: u32) -> bool
    ensures { result ≡ inside_of (shifted (interval_for interval) shift) here here }
{
    interval.low as usize <= shift
}

// What a shift becomes by the gap between the record here and the other one; none where it is gone.
pub(crate) fn moved(interval: Interval, shift: usize, here: u32, other: u32) -> Option<usize>
    requires { shift < 256 }
    ensures { (moved_of result ≡ moved_by (interval_for interval) shift here other) × Near result }
{
    let later = shift + apart(here, other);
    if endless(interval) {
        return Some(later.min(interval.low as usize));
    }
    (later <= interval.high as usize).then_some(later)
}

// How many shifts an interval has: 0 to high, or to low with no upper end.
pub(crate) fn shifts(interval: Interval) -> usize
    ensures { (result ≡ shifts_of (interval_for interval)) × (result ≤ 256) }
{
    if endless(interval) {
        interval.low as usize + 1
    } else {
        interval.high as usize + 1
    }
}
