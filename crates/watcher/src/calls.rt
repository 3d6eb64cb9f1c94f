// Start, feed, ask and close: the refusals first, then the rewriting on the lent area.
ghost use Rattle.std.specs.Prelude.{◌≡◌, length};
ghost use Rattle.rewriting.specs.Plans.{entry_for};
ghost use Rattle.watcher.specs.Limits.{area_words};
ghost use Rattle.watcher.specs.Lists.{lists_refusal};
ghost use Rattle.watcher.specs.Calls.{fresh_state, running_state};
ghost use Rattle.watcher.specs.Calls.{start_with, feed_with};
ghost use Rattle.watcher.specs.inside.Turns.{Passed, ended_state, close_by};
ghost use Rattle.watcher.specs.Clauses.{StartWouldRefuseClause, StartClause, WouldRefuseClause, FeedClause};
ghost use Rattle.watcher.specs.Clauses.{AskClause, CloseClause, HorizonClause};

use crate::held::start_refuses;
use crate::horizon::horizon_in;
use crate::lists::records_of;
use crate::readings::{signal_word, time_of};
use crate::refusals::{close_refusal, feed_refusal, start_refusal};
use crate::state::{Ended, Fed, Phase, Refusal, Started, Verdict, Watcher};
use crate::turns::{begin_area, close_area, padded, report_on, rewrite_area, value_now};
use rewriting::step::Moment;

// A fresh state with a rule and a list.
#[tactic(auto, unfolding(crate::specs::Calls::fresh_state))]
fn fresh_state(rule: &[u8], signals: &[u8]) -> Watcher
    ensures { result ≡ fresh_state rule.now signals.now }
{
    Watcher {
        rule: padded(rule),
        records: records_of(rule),
        list: padded(signals),
        signals: records_of(signals),
        phase: Phase::Fresh,
    }
}

// The state with its last record.
#[tactic(auto, unfolding(crate::specs::Calls::running_state))]
fn running_state(watcher: Watcher, last: Moment) -> Watcher
    ensures { result ≡ running_state watcher (entry_for last) }
{
    Watcher {
        phase: Phase::Running {
            time: last.time,
            signals: last.signals,
        },
        ..watcher
    }
}

// The state closed with a verdict.
#[tactic(auto, unfolding(crate::specs::inside::Turns::ended_state))]
fn closed_state(watcher: Watcher, verdict: Verdict) -> Watcher
    ensures { result ≡ ended_state watcher verdict }
{
    Watcher {
        phase: Phase::Closed(verdict),
        ..watcher
    }
}

// Start with lists and an area that are not refused.
#[tactic(auto, unfolding(crate::specs::Calls::start_with, crate::specs::inside::Turns::begun_of))]
fn begin(rule: &[u8], signals: &[u8], area: &mut [u64]) -> Started
    requires { (lists_refusal rule.now signals.now ≡ Ok tt) × (length area.old ≡ area_words) }
    ensures { (result, area.new) ≡ start_with (Ok tt) rule.now signals.now
        area.old }
{
    begin_area(rule, area);
    Started {
        found: Ok(()),
        next: fresh_state(rule, signals),
    }
}

// Feed a record that is not refused.
#[tactic(auto, unfolding(crate::specs::Calls::feed_with, crate::specs::inside::Turns::rewritten_of, crate::specs::Records::entry_of))]
fn advance(watcher: Watcher, bytes: &[u8], area: &mut [u64]) -> Fed
    requires { Passed watcher area.old }
    ensures { (result, area.new) ≡ feed_with (Ok tt) watcher bytes.now area.old }
{
    let new = Moment {
        time: time_of(bytes),
        signals: signal_word(&watcher.list, watcher.signals, bytes),
    };
    rewrite_area(watcher, new, area);
    Fed {
        answer: Ok(report_on(area)),
        next: running_state(watcher, new),
    }
}

// Close a log that is not refused, with the verdict that asking gave.
#[tactic(auto, using(crate::proofs::Numbers::kept_value), unfolding(crate::specs::inside::Turns::close_by))]
fn finish(watcher: Watcher, verdict: Verdict, area: &mut [u64]) -> Ended
    requires { Passed watcher area.old }
    ensures { (result, area.new) ≡ close_by watcher area.old (Ok verdict) }
{
    close_area(watcher, verdict == Verdict::Kept, area);
    Ended {
        answer: Ok(verdict),
        next: closed_state(watcher, verdict),
    }
}

impl Watcher {
    // Would this start be refused, and by which number. Rule, signals and area stay parameters: each is lent by itself,
    // also from C.
    pub fn start_would_refuse(rule: &[u8], signals: &[u8], area: &[u64]) -> Result<(), Refusal>
        ensures { StartWouldRefuseClause rule.now signals.now area.now result }
    {
        start_refusal(rule, signals, area)
    }

    // Start a watcher on a rule, a signal list and a work area.
    #[tactic(auto, unfolding(crate::specs::Calls::start_of, crate::specs::Calls::start_with))]
    pub fn start(rule: &[u8], signals: &[u8], area: &mut [u64]) -> Started
        ensures { StartClause rule.now signals.now area.old
            (result, area.new) }
    {
        match Watcher::start_would_refuse(rule, signals, area) {
            Ok(()) => begin(rule, signals, area),
            Err(refusal) => Started {
                found: Err(refusal),
                next: Watcher::zero_state(),
            },
        }
    }

    // Would this record be refused, and by which number.
    pub fn would_refuse(self, bytes: &[u8], area: &[u64]) -> Result<(), Refusal>
        ensures { WouldRefuseClause self bytes.now area.now result }
    {
        feed_refusal(self, bytes, area)
    }

    // Feed one record.
    #[tactic(auto, unfolding(crate::specs::Calls::feed_of, crate::specs::Calls::feed_with))]
    pub fn feed(self, bytes: &[u8], area: &mut [u64]) -> Fed
        ensures { FeedClause self bytes.now area.old (result, area.new) }
    {
        match self.would_refuse(bytes, area) {
            Ok(()) => advance(self, bytes, area),
            Err(refusal) => Fed {
                answer: Err(refusal),
                next: self,
            },
        }
    }

    // How the log ends, were this the last record.
    #[tactic(auto, unfolding(crate::specs::Calls::ask_of, crate::specs::Calls::ask_with))]
    pub fn ask(self, area: &[u64]) -> Result<Verdict, Refusal>
        ensures { AskClause self area.now (result, area.now) }
    {
        close_refusal(self, area)?;
        Ok(Verdict::from(value_now(self, area)))
    }

    // Close the log, as asking answers.
    #[tactic(auto, using(crate::proofs::Asking::close_by_lem), unfolding(crate::specs::inside::Turns::close_by))]
    pub fn close(self, area: &mut [u64]) -> Ended
        ensures { CloseClause self area.old (result, area.new) }
    {
        match self.ask(area) {
            Ok(verdict) => finish(self, verdict, area),
            Err(refusal) => Ended {
                answer: Err(refusal),
                next: self,
            },
        }
    }

    // How long the rule can stay open, in minutes; where start refuses the rule or the list there is no limit.
    #[tactic(auto, unfolding(crate::specs::Calls::wait_of, crate::specs::State::rule_of, crate::specs::Numbers::horizon_for))]
    pub fn horizon(self) -> Option<usize>
        ensures { HorizonClause self result }
    {
        if start_refuses(self) {
            return None;
        }
        horizon_in(&self.rule, self.records)
    }
}
