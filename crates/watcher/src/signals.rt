// The signal list's layout, and the signals that a rule names.
ghost use Rattle.std.specs.Prelude.{◌≡◌, ◌<◌};
ghost use Rattle.ground.specs.Fold.{some};
ghost use Rattle.watcher.specs.Rules.{records_of};
ghost use Rattle.watcher.specs.Signals.{signal_breaks, names_missing_at, names_missing};
ghost use Rattle.watcher.specs.Clauses.{WrongSignalsClause};

use crate::lists::{records_of, wrong_length};
use crate::state::Watcher;
use ground::bytes::{byte, little};
use rewriting::kind::Kind;
use rewriting::rule::record_at;

// Whether record k breaks the layout.
pub(crate) fn signal_breaks(list: &[u8], k: usize) -> bool
    requires { k < records_of list.now }
    ensures { result ≡ signal_breaks list.now k }
{
    let at = Watcher::RECORD_BYTES * k;
    let channel = byte(list, at);
    if channel < 1 || 5 < channel {
        return true;
    }
    1 < byte(list, at + 1) || little::<4>(list, at + 4) != 0
}

// Whether some record breaks the layout.
fn bad_signals(list: &[u8]) -> bool
    ensures { result ≡ some (records_of list.now) (signal_breaks list.now) }
{
    (0..records_of(list)).any(|k| signal_breaks(list, k))
}

// Whether the bytes are no signal list: a wrong length, or a record that breaks the layout.
#[tactic(auto, unfolding(crate::specs::Signals::wrong_signals))]
pub fn wrong_signals(list: &[u8]) -> bool
    ensures { WrongSignalsClause list.now result }
{
    wrong_length(list, Watcher::RECORD_BYTES, Watcher::SIGNALS) || bad_signals(list)
}

// Whether record k of the rule names a signal that a list of so many does not define.
fn names_missing_at(rule: &[u8], signals: usize, k: usize) -> bool
    ensures { result ≡ names_missing_at rule.now signals k }
{
    let record = record_at(rule, k);
    match record.kind {
        Kind::Signal => signals <= record.left as usize,
        _ => false,
    }
}

// Whether some record of the rule does.
pub(crate) fn names_missing(rule: &[u8], signals: usize) -> bool
    ensures { result ≡ names_missing rule.now signals }
{
    (0..records_of(rule)).any(|k| names_missing_at(rule, signals, k))
}
