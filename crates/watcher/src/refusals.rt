// Which refusal, if any, in document 01's order, and its number.
ghost use Rattle.std.specs.Prelude.{◌≡◌};
ghost use Rattle.watcher.specs.Lists.{first_refusal};
ghost use Rattle.watcher.specs.Calls.{wrong_area, is_closed, is_fresh, too_early};
ghost use Rattle.watcher.specs.Calls.{start_refusal, state_tests, feed_refusal, close_refusal};
ghost use Rattle.watcher.specs.Numbers.{stage_of};
ghost use Rattle.watcher.specs.Clauses.{CheckRuleClause, CheckListsClause, NumberClause};

use crate::lists::{first_broken, first_twins, many_parameters, records_of, wrong_length};
use crate::readings::{time_of, wrong_record};
use crate::shape::broken_state;
use crate::signals::{names_missing, wrong_signals};
use crate::state::{Phase, Refusal, Watcher};

// What is refused of a rule by itself: refusals 1 to 3.
#[tactic(auto, unfolding(crate::specs::Lists::rule_refusal, crate::specs::Lists::first_refusal))]
pub fn check_rule(rule: &[u8]) -> Result<(), Refusal>
    ensures { CheckRuleClause rule.now result }
{
    if wrong_length(rule, Watcher::RECORD_BYTES, Watcher::RECORDS) {
        return Err(Refusal::RuleLength);
    }
    if first_broken(rule).is_some() {
        return Err(Refusal::RuleRecord);
    }
    if first_twins(rule, Watcher::RECORD_BYTES).is_some() {
        return Err(Refusal::RuleTwins);
    }
    Ok(())
}

// What is refused of the lists that start is given: refusals 1 to 6.
#[tactic(auto, using(crate::proofs::Testing::list_order))]
pub fn check_lists(rule: &[u8], signals: &[u8]) -> Result<(), Refusal>
    ensures { CheckListsClause rule.now signals.now result }
{
    check_rule(rule)?;
    if many_parameters(rule) {
        return Err(Refusal::RuleParameters);
    }
    if wrong_signals(signals) {
        return Err(Refusal::SignalList);
    }
    if names_missing(rule, records_of(signals)) {
        return Err(Refusal::SignalMissing);
    }
    Ok(())
}

// Whether the work area has another length than a watcher's.
#[tactic(auto, unfolding(crate::specs::Calls::wrong_area, rewriting::specs::Known::words_for))]
fn wrong_area(area: &[u64]) -> bool
    ensures { result ≡ wrong_area area.now }
{
    area.len() != Watcher::WORDS
}

// What is refused of a start: refusals 1 to 7.
#[tactic(auto, using(crate::proofs::Testing::start_order))]
pub(crate) fn start_refusal(rule: &[u8], signals: &[u8], area: &[u64]) -> Result<(), Refusal>
    ensures { result ≡ start_refusal rule.now signals.now area.now }
{
    check_lists(rule, signals)?;
    if wrong_area(area) {
        return Err(Refusal::AreaLength);
    }
    Ok(())
}

// Whether the watcher is closed.
#[tactic(auto, unfolding(crate::specs::Calls::is_closed, crate::specs::Numbers::stage_of))]
fn is_closed(phase: Phase) -> bool
    ensures { result ≡ is_closed (stage_of phase) }
{
    matches!(phase, Phase::Closed(_))
}

// What feed, ask and close test first: refusals 7, 12 and 10.
#[tactic(auto, unfolding(crate::specs::Calls::state_tests, crate::specs::Lists::first_refusal))]
fn state_refusal(watcher: Watcher, area: &[u64]) -> Result<(), Refusal>
    ensures { result ≡ first_refusal (state_tests watcher area.now) }
{
    if wrong_area(area) {
        return Err(Refusal::AreaLength);
    }
    if broken_state(watcher, area) {
        return Err(Refusal::BrokenState);
    }
    if is_closed(watcher.phase) {
        return Err(Refusal::AlreadyClosed);
    }
    Ok(())
}

// Whether the record's time is lower than the last accepted record's.
#[tactic(auto, unfolding(crate::specs::Calls::too_early, crate::specs::Numbers::stage_of))]
fn too_early(phase: Phase, time: u32) -> bool
    ensures { result ≡ too_early (stage_of phase) time }
{
    matches!(phase, Phase::Running { time: last, .. } if time < last)
}

// Whether nothing was fed.
#[tactic(auto, unfolding(crate::specs::Calls::is_fresh, crate::specs::Numbers::stage_of))]
fn is_fresh(phase: Phase) -> bool
    ensures { result ≡ is_fresh (stage_of phase) }
{
    matches!(phase, Phase::Fresh)
}

// Would this record be refused, and by which number: refusals 7, 12, 10, 8 and 9.
#[tactic(auto, unfolding(crate::specs::Calls::feed_refusal, crate::specs::Calls::state_tests, crate::specs::Lists::first_refusal))]
pub(crate) fn feed_refusal(watcher: Watcher, bytes: &[u8], area: &[u64]) -> Result<(), Refusal>
    ensures { result ≡ feed_refusal watcher bytes.now area.now }
{
    state_refusal(watcher, area)?;
    if wrong_record(bytes) {
        return Err(Refusal::LogRecord);
    }
    if too_early(watcher.phase, time_of(bytes)) {
        return Err(Refusal::LogTime);
    }
    Ok(())
}

// What is refused of asking and of closing: refusals 7, 12, 10 and 11.
#[tactic(auto, unfolding(crate::specs::Calls::close_refusal, crate::specs::Calls::state_tests, crate::specs::Lists::first_refusal))]
pub(crate) fn close_refusal(watcher: Watcher, area: &[u64]) -> Result<(), Refusal>
    ensures { result ≡ close_refusal watcher area.now }
{
    state_refusal(watcher, area)?;
    if is_fresh(watcher.phase) {
        return Err(Refusal::NothingFed);
    }
    Ok(())
}

impl Refusal {
    // Document 01's number of a refusal.
    #[tactic(auto, unfolding(crate::specs::Numbers::refusal_number))]
    pub fn number(self) -> usize
        ensures { NumberClause self result }
    {
        self as usize
    }
}
