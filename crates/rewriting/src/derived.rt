// The derived row of a record's shift.
ghost use Rattle.rewriting.specs.declared.row.Row.TheVariants.{Derived};
ghost use Rattle.rewriting.specs.inside.Steps.{OfNext, OfLater, OfMade};

use crate::kind::Kind;
use crate::parts::{now_or, signal};
use crate::step::Step;
use forms::area::Rows;
use forms::join::and;
use forms::rows::{constant, parameter};
use forms::table::put_in;

// Next derived: left's form if the gap is inside, else false; false at the end.
fn next_row(step: Step, forms: Rows<'_>) -> [u64; 64]
    ensures { OfNext step forms.entry result }
{
    if step.sees_neighbour() {
        forms.row(step.record.left as usize)
    } else {
        constant(false)
    }
}

// Until's second part derived: left derived, and the parameter of the moved shift; false at the end.
fn until_later(step: Step, left: [u64; 64], derived: Rows<'_>) -> [u64; 64]
    ensures { OfLater step left derived.entry result }
{
    let Some(shift) = step.moved() else {
        return constant(false);
    };
    let kept = put_in(left, derived);
    and(kept, parameter(step.first + shift, step.m))
}

// The derived row of a step, from the past rows, and the forms and derived rows of the records before. It and the past
// row begin alike, and each goes by all kinds, as its definition does.
pub(crate) fn derived_row(
    step: Step,
    forms: Rows<'_>,
    past: Rows<'_>,
    derived: Rows<'_>,
) -> [u64; 64]
    ensures { OfMade Derived step forms.entry derived.entry past.entry result }
{
    let record = step.record;
    match record.kind {
        Kind::True | Kind::False | Kind::And | Kind::Xor => constant(false),
        Kind::Signal => constant(signal(step.signals, record.left)),
        Kind::Next => next_row(step, forms),
        Kind::Until => {
            let left = forms.row(record.left as usize);
            let right = forms.row(record.right as usize);
            let later = until_later(step, left, derived);
            now_or(step, right, derived, later)
        }
        Kind::Previous | Kind::Since | Kind::Other(_) => {
            let row = past.row(step.first + step.shift);
            put_in(row, derived)
        }
    }
}
