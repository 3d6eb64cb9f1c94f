// Rows of forms: made, joined and read.
ghost use Rattle.std.specs.Prelude.{◌<◌};
ghost use Rattle.forms.specs.inside.Steps.{Alone};
ghost use Rattle.forms.specs.Clauses.{ConstantClause, ParameterClause, XorClause, OrClause};
ghost use Rattle.forms.specs.Clauses.{WhichConstantClause, FitsClause, NamesClause};

use crate::join::and;
use crate::scan::{Terms, next_term};
use std::array;

// Which constant a form is, if any.
#[derive(Clone, Copy)]
pub enum Truth {
    False,
    True,
    Open,
}

// The row of term k alone.
fn alone(k: usize) -> [u64; 64]
    requires { k < 4096 }
    ensures { Alone k result }
{
    let mut r = [0; 64];
    r[k / 64] = 1 << (k % 64);
    r
}

// The row of true, or of false.
pub fn constant(b: bool) -> [u64; 64]
    ensures { ConstantClause b result }
{
    if b { alone(0) } else { [0; 64] }
}

// The row of parameter p of m; a row has room for the first 12.
pub fn parameter(p: usize, m: usize) -> [u64; 64]
    ensures { ParameterClause p m result }
{
    if p < m && p < 12 {
        alone(1 << p)
    } else {
        [0; 64]
    }
}

// The row of the exclusive or: the terms of one row but not of the other.
pub fn xor(a: [u64; 64], b: [u64; 64]) -> [u64; 64]
    ensures { XorClause a b result }
{
    array::from_fn(|i| a[i] ^ b[i])
}

// The row of the disjunction: "a or b" is a xor b xor (a and b).
pub fn or(a: [u64; 64], b: [u64; 64]) -> [u64; 64]
    ensures { OrClause a b result }
{
    let either = xor(a, b);
    let both = and(a, b);
    xor(either, both)
}

// Which constant the row's form is, if any: true has the empty term alone, and false has none.
pub fn which_constant(row: [u64; 64]) -> Truth
    ensures { WhichConstantClause row result }
{
    if next_term(&row, 1, 4096).is_some() {
        return Truth::Open;
    }
    if next_term(&row, 0, 1).is_some() {
        Truth::True
    } else {
        Truth::False
    }
}

// Whether the row is one of a form over m parameters: it has no term from 2^m on.
pub fn fits(row: [u64; 64], m: usize) -> bool
    ensures { FitsClause row m result }
{
    m >= 12 || next_term(&row, 1 << m, 4096).is_none()
}

// The parameters that the row's form names: bit j is set where a term has parameter j.
pub fn names(row: [u64; 64]) -> usize
    ensures { NamesClause row result }
{
    let mut named = 0;
    for k in Terms::of(&row) {
        named |= k;
    }
    named
}
