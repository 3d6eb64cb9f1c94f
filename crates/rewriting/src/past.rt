// The past row of a record's shift. It begins as the derived row does, and differs in every arm behind.
ghost use Rattle.rewriting.specs.declared.row.Row.TheVariants.{Past};
ghost use Rattle.rewriting.specs.inside.Steps.{OfPrevious, OfEarlier, OfMade};

use crate::kind::Kind;
use crate::parts::{now_or, signal};
use crate::step::Step;
use forms::area::Rows;
use forms::join::and;
use forms::rows::{constant, parameter};
use forms::table::put_in;

// Previous resolved: left with the derived rows put in, then the past rows; false at the first record.
fn previous_row(step: Step, left: [u64; 64], past: Rows<'_>, derived: Rows<'_>) -> [u64; 64]
    ensures { OfPrevious step left past.entry derived.entry result }
{
    if step.sees_neighbour() {
        let with_derived = put_in(left, derived);
        put_in(with_derived, past)
    } else {
        constant(false)
    }
}

// Since's second part resolved: left, and the derived row of the moved shift; false at the first record.
fn since_earlier(step: Step, left: [u64; 64], past: Rows<'_>, derived: Rows<'_>) -> [u64; 64]
    ensures { OfEarlier step left past.entry derived.entry result }
{
    let Some(shift) = step.moved() else {
        return constant(false);
    };
    let moved = derived.row(step.first + shift);
    let before = put_in(moved, past);
    let kept = put_in(left, past);
    and(kept, before)
}

// The past row of a step, from the forms and past rows of the records before, and the derived rows of the log record
// before.
pub(crate) fn past_row(step: Step, forms: Rows<'_>, past: Rows<'_>, derived: Rows<'_>) -> [u64; 64]
    ensures { OfMade Past step forms.entry past.entry derived.entry result }
{
    let record = step.record;
    match record.kind {
        Kind::True | Kind::False | Kind::And | Kind::Xor => constant(false),
        Kind::Signal => constant(signal(step.signals, record.left)),
        Kind::Next | Kind::Until => parameter(step.first + step.shift, step.m),
        Kind::Previous => {
            let left = forms.row(record.left as usize);
            previous_row(step, left, past, derived)
        }
        Kind::Since | Kind::Other(_) => {
            let left = forms.row(record.left as usize);
            let right = forms.row(record.right as usize);
            let earlier = since_earlier(step, left, past, derived);
            now_or(step, right, past, earlier)
        }
    }
}
