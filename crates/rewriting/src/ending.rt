// The end of a log: every derived row is a constant there, so the parameters have a setting.
ghost use Rattle.std.specs.Prelude.{◌≡◌, ◌&&◌, ◌||◌, ℕ, ◌+◌, ◌≤◌, ◌<◌, eqb, length};
ghost use Rattle.ground.specs.Bits.{bit};
ghost use Rattle.rewriting.specs.Known.{words_for, Tidy};
ghost use Rattle.rewriting.specs.Plans.{Ready};
ghost use Rattle.rewriting.specs.inside.Endings.{Settled, last_rows, OfEnd, OfEnds};
ghost use Rattle.rewriting.specs.Clauses.{ValueIfLastClause, CloseClause, BeginClause};

use crate::kind::Kind;
use crate::parts::signal;
use crate::rule::{Records, Tabled, count_of};
use crate::step::{Moment, Plan, Step};
use crate::walk::step_at;
use forms::area::{Rows, clear, load, store};
use forms::rows::constant;
use forms::table::value;

// The value of a record's shift at the end, from a setting that has those of the records before.
fn end_value(step: Step, forms: Rows<'_>, past: Rows<'_>, setting: usize) -> bool
    ensures { OfEnd step forms.entry past.entry setting result }
{
    let record = step.record;
    match record.kind {
        Kind::True | Kind::False | Kind::And | Kind::Xor | Kind::Next => false,
        Kind::Signal => signal(step.signals, record.left),
        Kind::Until => step.sees_itself() && value(forms.row(record.right as usize), setting),
        Kind::Previous | Kind::Since | Kind::Other(_) => {
            value(past.row(step.first + step.shift), setting)
        }
    }
}

// The setting with parameter p true as well, if b is.
fn with_value(setting: usize, p: usize, b: bool) -> usize
    requires { p < 64 }
    ensures { (t : ℕ) → bit result t ≡ (bit setting t || (b && eqb p t)) }
{
    if b { setting | (1 << p) } else { setting }
}

// The setting with the values of the first count shifts of a record at the end.
fn end_values(step: Step, count: usize, forms: Rows<'_>, past: Rows<'_>, setting: usize) -> usize
    requires { step.first + count ≤ 64 }
    ensures { OfEnds step count forms.entry past.entry setting result }
{
    let mut grown = setting;
    for n in 0..count {
        let b = end_value(step.at_shift(n), forms, past, setting);
        grown = with_value(grown, step.first + n, b);
    }
    grown
}

// The setting of a rule's parameters, were this the last record. A turn begins as one of `walk` does, and what it makes
// of a record differs.
fn last_setting(tabled: Tabled<'_, '_>, last: Moment, area: &[u64]) -> usize
    requires { Ready tabled.rule.list.now tabled.rule.plan tabled.forms.now area.now }
    ensures { let rule = tabled.entry.rule in
        Settled rule.plan.m (last_rows rule.list.now rule.plan last area.now rule.plan.records) result }
{
    let plan = tabled.rule.plan;
    let past = Rows {
        area,
        base: 0,
        count: plan.m,
    };
    let mut setting: usize = 0;
    for (k, record, first) in Records::of(tabled.rule.list, plan.records) {
        let step = step_at(record, first, plan.m, last, None);
        let count = count_of(record);
        let before = Rows {
            area: tabled.forms,
            base: 0,
            count: k,
        };
        setting = end_values(step, count, before, past, setting);
    }
    setting
}

// The value were this the last record.
pub fn value_if_last(tabled: Tabled<'_, '_>, last: Moment, area: &[u64]) -> bool
    requires { Ready tabled.rule.list.now tabled.rule.plan tabled.forms.now area.now }
    ensures { ValueIfLastClause tabled.entry.rule.list.now tabled.entry.rule.plan last tabled.entry.forms.now area.now
        result }
{
    let setting = last_setting(tabled, last, area);
    value(load(area, tabled.rule.plan.places), setting)
}

// Closing with a value: the past rows stay, and the remainder is that constant. It takes a plan alone: neither list nor
// forms are looked at.
pub fn close(plan: Plan, b: bool, area: &mut [u64])
    requires { (plan.places ≤ 12) × Tidy plan.places plan.m area.old }
    ensures { CloseClause plan b area.old area.new }
{
    let scratch = plan.places + 1;
    store(area, plan.places, constant(b));
    clear(area, scratch, scratch);
}

// The area at start: past rows zero, the remainder is the rule's form.
pub fn begin(tabled: Tabled<'_, '_>, area: &mut [u64])
    requires { length area.old ≡ words_for tabled.rule.plan.places }
    ensures { BeginClause tabled.entry.rule.list.now tabled.entry.rule.plan tabled.entry.forms.now area.old area.new }
{
    let plan = tabled.rule.plan;
    clear(area, 0, plan.places);
    let rows = Rows {
        area: tabled.forms,
        base: 0,
        count: plan.records,
    };
    store(area, plan.places, rows.row(plan.records - 1));
    clear(area, plan.places + 1, plan.places + 1);
}
