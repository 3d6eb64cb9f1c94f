// What a state's lists hold: the parts of check 12 that read no row.
ghost use Rattle.std.specs.Prelude.{◌≡◌, ◌≤◌};
ghost use Rattle.watcher.specs.Limits.{most_records, most_signals};
ghost use Rattle.watcher.specs.Numbers.{stage_of};
ghost use Rattle.watcher.specs.State.{start_refuses, not_zeros_behind, signals_above};

use crate::refusals::check_lists;
use crate::state::{Phase, Watcher, is_refused};
use ground::bytes::zeros_from;

// Whether the state holds a rule or list that start would refuse.
#[tactic(auto, unfolding(crate::specs::State::start_refuses, crate::specs::State::rule_bytes, crate::specs::State::list_bytes_of))]
pub(crate) fn start_refuses(watcher: Watcher) -> bool
    ensures { result ≡ start_refuses watcher }
{
    if Watcher::RECORDS < watcher.records || Watcher::SIGNALS < watcher.signals {
        return true;
    }
    let rule = &watcher.rule[..Watcher::RECORD_BYTES * watcher.records];
    let list = &watcher.list[..Watcher::RECORD_BYTES * watcher.signals];
    is_refused(check_lists(rule, list))
}

// Whether a byte behind one of its lists is not zero.
#[tactic(auto, unfolding(crate::specs::State::not_zeros_behind))]
pub(crate) fn not_zeros_behind(watcher: Watcher) -> bool
    requires { (watcher.records ≤ most_records) × (watcher.signals ≤ most_signals) }
    ensures { result ≡ not_zeros_behind watcher }
{
    !zeros_from(&watcher.rule, Watcher::RECORD_BYTES * watcher.records)
        || !zeros_from(&watcher.list, Watcher::RECORD_BYTES * watcher.signals)
}

// Whether a running signal word has bits above a list of so many.
#[tactic(auto, unfolding(crate::specs::State::signals_above, crate::specs::Numbers::stage_of))]
pub(crate) fn signals_above(signals: usize, phase: Phase) -> bool
    requires { signals ≤ most_signals }
    ensures { result ≡ signals_above signals (stage_of phase) }
{
    matches!(phase, Phase::Running { signals: word, .. } if (1 << signals) <= word as usize)
}
