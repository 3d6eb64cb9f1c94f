// One row of a record's shift, derived or past. Past rows stand first in the area, derived rows in its scratch.
ghost use Rattle.std.specs.Prelude.{◌≡◌};
ghost use Rattle.rewriting.specs.inside.Steps.{own_at, other_at, OfMade};

use crate::derived::derived_row;
use crate::past::past_row;
use crate::step::Step;
use forms::area::Rows;

// Which rows are made.
#[derive(Clone, Copy)]
pub(crate) enum Row {
    Derived,
    Past,
}

// The place from which on these rows stand.
pub(crate) fn own_at(row: Row, scratch: usize) -> usize
    ensures { result ≡ own_at row scratch }
{
    match row {
        Row::Derived => scratch,
        Row::Past => 0,
    }
}

// The place from which on the others stand; it is `own_at` turned round, and no shorter by it.
pub(crate) fn other_at(row: Row, scratch: usize) -> usize
    ensures { result ≡ other_at row scratch }
{
    match row {
        Row::Derived => 0,
        Row::Past => scratch,
    }
}

// The row of a step, from the forms of the records before, their rows of this kind, and the others.
pub(crate) fn step_row(
    row: Row,
    step: Step,
    forms: Rows<'_>,
    own: Rows<'_>,
    other: Rows<'_>,
) -> [u64; 64]
    ensures { OfMade row step forms.entry own.entry other.entry result }
{
    match row {
        Row::Derived => derived_row(step, forms, other, own),
        Row::Past => past_row(step, forms, own, other),
    }
}
