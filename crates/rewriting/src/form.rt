// A record's form: constants, and, exclusive or are read as such, any other is its parameter of shift 0.
ghost use Rattle.std.specs.Prelude.{◌≤◌};
ghost use Rattle.rewriting.specs.inside.Steps.{OfRecord};

use crate::kind::Kind;
use crate::step::Record;
use forms::area::Rows;
use forms::join::and;
use forms::rows::{constant, parameter, xor};

// The form of a record, with its first parameter, from the forms of the records before it. That m is at most 12, the
// parameters that a row has room for, stays a clause of a number.
pub(crate) fn form_row(record: Record, first: usize, m: usize, forms: Rows<'_>) -> [u64; 64]
    requires { m ≤ 12 }
    ensures { OfRecord «record» first m forms.entry result }
{
    match record.kind {
        Kind::True => constant(true),
        Kind::False => constant(false),
        Kind::And => and(
            forms.row(record.left as usize),
            forms.row(record.right as usize),
        ),
        Kind::Xor => xor(
            forms.row(record.left as usize),
            forms.row(record.right as usize),
        ),
        Kind::Signal | Kind::Next | Kind::Until | Kind::Previous | Kind::Since | Kind::Other(_) =>
            parameter(first, m),
    }
}
