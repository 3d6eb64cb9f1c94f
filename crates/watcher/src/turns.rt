// What start, feed and close make of the lent area, and what asking reads of it.
ghost use Rattle.std.specs.Prelude.{◌≡◌, ◌≤◌, length};
ghost use Rattle.meaning.specs.Words.{word};
ghost use Rattle.forms.specs.Rows.{OfForm};
ghost use Rattle.rewriting.specs.Plans.{Sound, HoldsForms, closed_with};
ghost use Rattle.watcher.specs.Limits.{most_records, most_parameters, area_words};
ghost use Rattle.watcher.specs.Numbers.{saying};
ghost use Rattle.watcher.specs.Rules.{records_of};
ghost use Rattle.watcher.specs.State.{parameters_of};
ghost use Rattle.watcher.specs.Calls.{padded as padded_of, value_now};
ghost use Rattle.watcher.specs.inside.Turns.{plan_on, plan_of, plan_in, Passed, rewritten_of, ReportsOn, begun_of};

use crate::lists::records_of;
use crate::state::{Phase, Report, Watcher, Word};
use forms::area::load;
use forms::rows::{Truth, which_constant};
use ground::bytes::byte;
use rewriting::rule::{Rule, Tabled, parameters_in};
use rewriting::step::{Moment, Plan};
use rewriting::walk::forms_of;
use rewriting::{ending, rewrite};
use std::array;

// A list with zeros behind it.
pub(crate) fn padded(list: &[u8]) -> [u8; Watcher::LIST_BYTES]
    ensures { result ≡ padded_of list.now }
{
    array::from_fn(|i| byte(list, i))
}

// The word of a remainder.
#[tactic(auto, unfolding(crate::specs::Numbers::saying, meaning::specs::Words::word, meaning::specs::Words::word_for))]
fn word_of(row: [u64; 64]) -> Word
    ensures { OfForm (λ m f. saying (word m f)) row result }
{
    match which_constant(row) {
        Truth::True => Word::Kept,
        Truth::False => Word::Broken,
        Truth::Open => Word::Pending,
    }
}

// The report on an area after an accepted record.
pub(crate) fn report_on(area: &[u64]) -> Report
    ensures { ReportsOn area.now result }
{
    Report {
        word: word_of(load(area, Watcher::PARAMETERS)),
    }
}

// The rule of so many records in a list.
fn rule_in(list: &[u8], records: usize) -> Rule<'_>
    requires { Sound list.now (plan_on list.now records) }
    ensures { (result.list.now ≡ list.now) × (result.plan ≡ plan_on list.now records) }
{
    let plan = Plan {
        records,
        m: parameters_in(list, records),
        places: Watcher::PARAMETERS,
    };
    Rule { list, plan }
}

// The table of the forms of a rule's records.
fn table_for(rule: Rule<'_>) -> [u64; Watcher::TABLE_WORDS]
    requires { rule.plan.records ≤ most_records }
    ensures { HoldsForms rule.entry.list.now rule.entry.plan result }
{
    let mut table = [0u64; Watcher::TABLE_WORDS];
    forms_of(rule.list, rule.plan.records, rule.plan.m, &mut table);
    table
}

// The area at start.
#[tactic(auto, unfolding(crate::specs::inside::Turns::begun_of))]
pub(crate) fn begin_area(list: &[u8], area: &mut [u64])
    requires { Sound list.now (plan_in list.now) × (records_of list.now ≤ most_records)
        × (length area.old ≡ area_words) }
    ensures { area.new ≡ begun_of list.now }
{
    let rule = rule_in(list, records_of(list));
    let table = table_for(rule);
    let tabled = Tabled {
        rule,
        forms: &table,
    };
    ending::begin(tabled, area);
}

// The area after a record: the first leaves the remainder, a later one is fed. That state and area pass refusals 7 and
// 12 stays a clause: the area is lent, and a struct of both would be made only to be taken apart.
pub(crate) fn rewrite_area(watcher: Watcher, new: Moment, area: &mut [u64])
    requires { Passed watcher area.old }
    ensures { (area.new ≡ rewritten_of watcher new area.old)
        × (parameters_of watcher ≤ most_parameters) }
{
    let rule = rule_in(&watcher.rule, watcher.records);
    let table = table_for(rule);
    let tabled = Tabled {
        rule,
        forms: &table,
    };
    match watcher.phase {
        Phase::Running { time, signals } => {
            let last = Moment { time, signals };
            rewrite::feed(tabled, last, new, area)
        }
        Phase::Fresh | Phase::Closed(_) => rewrite::first(tabled, new, area),
    }
}

// The value were this the last record.
pub(crate) fn value_now(watcher: Watcher, area: &[u64]) -> bool
    requires { Passed watcher area.now }
    ensures { result ≡ value_now watcher area.now }
{
    let rule = rule_in(&watcher.rule, watcher.records);
    let table = table_for(rule);
    let tabled = Tabled {
        rule,
        forms: &table,
    };
    ending::value_if_last(tabled, watcher.phase.last(), area)
}

// The area after closing with a value.
pub(crate) fn close_area(watcher: Watcher, b: bool, area: &mut [u64])
    requires { Passed watcher area.old }
    ensures { area.new ≡ closed_with (plan_of watcher) b area.old }
{
    let rule = rule_in(&watcher.rule, watcher.records);
    ending::close(rule.plan, b, area);
}
