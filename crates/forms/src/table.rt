// The truth values of a row, and putting rows in by them.
ghost use Rattle.std.specs.Prelude.{◌≡◌, ◌+◌, ◌^◌, ◌≤◌, ◌<◌};
ghost use Rattle.forms.specs.Form.{Form, truth};
ghost use Rattle.forms.specs.Words.{most, pack};
ghost use Rattle.forms.specs.Area.{row_at};
ghost use Rattle.forms.specs.Rows.{WithRows};
ghost use Rattle.forms.specs.inside.Steps.{PassedWord, Passed, Mixed, PutTerms, TableOf, TablesOf};
ghost use Rattle.forms.specs.Clauses.{PutInClause, ValueClause};

use crate::area::{Rows, store};
use crate::rows::names;
use crate::scan::{lone, next_term};
use std::array;

// The bits of a word whose number lacks parameter p.
const MASKS: [u64; 6] = [
    0x5555_5555_5555_5555,
    0x3333_3333_3333_3333,
    0x0F0F_0F0F_0F0F_0F0F,
    0x00FF_00FF_00FF_00FF,
    0x0000_FFFF_0000_FFFF,
    0x0000_0000_FFFF_FFFF,
];

// Word i of the row after the pass of parameter p.
fn pass_word(row: &[u64; 64], p: usize, i: usize) -> u64
    requires { (p < 12) × (i < 64) }
    ensures { PassedWord row.now p i result }
{
    let w = row[i];
    if p < 6 {
        let by: usize = 1 << p;
        return w ^ ((w & MASKS[p]) << by);
    }
    let by: usize = 1 << (p - 6);
    if i / by % 2 == 1 {
        return w ^ row[i - by];
    }
    w
}

// The row after the pass of parameter p.
fn pass(row: [u64; 64], p: usize) -> [u64; 64]
    requires { p < 12 }
    ensures { Passed row p result }
{
    array::from_fn(|i| pass_word(&row, p, i))
}

// The truth values of the row's form: bit s is its value where exactly the parameters of s are true.
pub(crate) fn truth_of(row: [u64; 64]) -> [u64; 64]
    ensures { (f : Form most) → row ≡ pack most f → result ≡ pack most (truth most f) }
{
    // False is true nowhere.
    if next_term(&row, 0, 4096).is_none() {
        return row;
    }
    let mut r = row;
    for p in 0..12 {
        // This stays two steps: the check has no proof for `r = pass(r, p)`.
        let passed = pass(r, p);
        r = passed;
    }
    r
}

// One step of putting in: a xor (row q of the tables and b), 64 settings at a time.
fn mix(a: [u64; 64], tables: &[u64; 768], q: usize, b: [u64; 64]) -> [u64; 64]
    requires { q < 12 }
    ensures { Mixed a (row_at tables.now q) b result }
{
    array::from_fn(|i| a[i] ^ (tables[64 * q + i] & b[i]))
}

// The truth values of the form of the row's 2^p bits from k on, with the forms whose truth values are given put in.
fn put_terms(row: &[u64; 64], tables: &[u64; 768], p: usize, k: usize) -> [u64; 64]
    requires { (p ≤ 12) × (k + 2 ^ p ≤ 4096) }
    ensures { PutTerms row.now tables.now p k result }
{
    let end = k + (1 << p);
    if next_term(row, k, end).is_none() {
        return [0; 64];
    }
    if p == 0 {
        return [u64::MAX; 64];
    }
    let q = p - 1;
    let a = put_terms(row, tables, q, k);
    let b = put_terms(row, tables, q, k + (1 << q));
    mix(a, tables, q, b)
}

// The truth values of row j of the rows, and of false where bit j of the mask is not set.
fn table_at(rows: Rows<'_>, named: usize, j: usize) -> [u64; 64]
    requires { j < 12 }
    ensures { TableOf rows.entry.area.now rows.entry.base rows.entry.count named j result }
{
    if (named >> j) % 2 == 0 {
        return [0; 64];
    }
    truth_of(rows.row(j))
}

// The truth values of the first twelve of the rows, and of false for those that are not named.
fn tables(rows: Rows<'_>, named: usize) -> [u64; 768]
    ensures { TablesOf rows.entry.area.now rows.entry.base rows.entry.count named result }
{
    let mut ts = [0; 768];
    for j in 0..12 {
        let t = table_at(rows, named, j);
        store(&mut ts, j, t);
    }
    ts
}

// What `put_in` makes, by truth values, whatever the row's form is: only the rows that it names matter.
fn put_by_values(row: [u64; 64], rows: Rows<'_>) -> [u64; 64]
    ensures { WithRows row rows.entry.area.now rows.entry.base rows.entry.count result }
{
    let ts = tables(rows, names(row));
    let v = put_terms(&row, &ts, 12, 0);
    truth_of(v)
}

// The row's form with the rows put in for its parameters, and false for the others.
pub fn put_in(row: [u64; 64], rows: Rows<'_>) -> [u64; 64]
    ensures { PutInClause row rows.entry.area.now rows.entry.base rows.entry.count result }
{
    // A constant stays, and a parameter is the row put in for it, negated or not: most calls need no truth values.
    if next_term(&row, 1, 4096).is_none() {
        return row;
    }
    if let Some(p) = lone(&row) {
        let mut r = rows.row(p);
        r[0] ^= row[0] % 2;
        return r;
    }
    put_by_values(row, rows)
}

// The value of the row's form where parameter j is true exactly if bit j of the setting is set.
pub fn value(row: [u64; 64], setting: usize) -> bool
    ensures { ValueClause row setting result }
{
    let k = setting % 4096;
    let t = truth_of(row);
    (t[k / 64] >> (k % 64)) % 2 == 1
}
