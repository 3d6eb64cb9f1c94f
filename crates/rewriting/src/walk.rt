// The loops over a rule's records: their forms into a table, their rows into an area. They stay loops: each writes into
// what it is lent at every turn.
ghost use Rattle.std.specs.Prelude.{◌≡◌, ◌*◌, ◌≤◌, length};
ghost use Rattle.rewriting.specs.Known.{words_for};
ghost use Rattle.rewriting.specs.inside.Walks.{step_in, Apart, Puts, Walked};
ghost use Rattle.rewriting.specs.Clauses.{FormsOfClause};

use crate::form::form_row;
use crate::row::{Row, other_at, own_at, step_row};
use crate::rule::{Records, Tabled, count_of};
use crate::step::{Moment, Record, Step};
use forms::area::{Rows, store};

// The forms of the first `records` records of the rule, in a table.
pub fn forms_of(list: &[u8], records: usize, m: usize, table: &mut [u64])
    requires { (m ≤ 12) × (records ≤ 64) × (64 * records ≤ length table.old) }
    ensures { FormsOfClause list.now records m table.old table.new }
{
    for (k, record, first) in Records::of(list, records) {
        let before = Rows {
            area: table,
            base: 0,
            count: k,
        };
        let row = form_row(record, first, m, before);
        store(table, k, row);
    }
}

// A record of the rule, whose parameters begin at first, at a record of the log, with shift 0. What it asks is what a
// step keeps.
pub(crate) fn step_at(
    record: Record,
    first: usize,
    m: usize,
    here: Moment,
    neighbour: Option<u32>,
) -> Step
    requires { (m ≤ 12) × (first ≤ 12) }
    ensures { (few : m ≤ 12) × (within : first ≤ 12)
        × (result ≡ step_in «record» first m here neighbour few within) }
{
    Step {
        record,
        first,
        shift: 0,
        m,
        here: here.time,
        signals: here.signals,
        neighbour,
    }
}

// The rows of the shifts of a record, from the forms of the records before it.
fn record_rows(
    row: Row,
    step: Step,
    count: usize,
    forms: Rows<'_>,
    area: &mut [u64],
    scratch: usize,
    held: usize,
)
    requires { Apart step count scratch held }
    ensures { Puts row step count forms.entry area.old scratch held area.new }
{
    let base = own_at(row, scratch);
    let far = other_at(row, scratch);
    for n in 0..count {
        let own = Rows {
            area,
            base,
            count: step.first,
        };
        let other = Rows {
            area,
            base: far,
            count: held,
        };
        let made = step_row(row, step.at_shift(n), forms, own, other);
        store(area, base + step.first + n, made);
    }
}

// The rows of the record here. The area holds so many of the other rows; none at the first record.
pub(crate) fn rule_rows(
    row: Row,
    tabled: Tabled<'_, '_>,
    here: Moment,
    near: Option<u32>,
    held: usize,
    area: &mut [u64],
)
    requires { (length area.old ≡ words_for tabled.rule.plan.places) × (held ≤ tabled.rule.plan.m) }
    ensures { Walked row tabled.entry.rule.list.now tabled.entry.rule.plan here near held area.old area.new }
{
    let plan = tabled.rule.plan;
    for (k, record, first) in Records::of(tabled.rule.list, plan.records) {
        let step = step_at(record, first, plan.m, here, near);
        let count = count_of(record);
        let before = Rows {
            area: tabled.forms,
            base: 0,
            count: k,
        };
        record_rows(row, step, count, before, area, plan.places + 1, held);
    }
}
