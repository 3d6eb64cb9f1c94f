// How long a rule can stay open: the minutes of each record's horizon, and none where it has no limit.
ghost use Rattle.std.specs.Prelude.{◌≡◌, ℕ, ◌+◌, ◌*◌, ◌≤◌, ◌<◌, get_or, None};
ghost use Rattle.meaning.specs.Horizon.{horizon, larger, later};
ghost use Rattle.rewriting.specs.Decode.{interval_for, rule_in};
ghost use Rattle.watcher.specs.Limits.{most_records};
ghost use Rattle.watcher.specs.Numbers.{horizon_for};
ghost use Rattle.watcher.specs.inside.Horizons.{UpTo, Small, OfRecord};

use crate::state::Watcher;
use rewriting::interval::endless;
use rewriting::kind::Kind;
use rewriting::rule::record_at;
use rewriting::step::{Interval, Record};

// The larger of two.
#[tactic(auto, unfolding(crate::specs::Numbers::horizon_for, meaning::specs::Horizon::larger))]
fn larger(a: Option<usize>, b: Option<usize>) -> Option<usize>
    ensures same { horizon_for result ≡ larger (horizon_for a) (horizon_for b) }
    ensures small { (n : ℕ) → UpTo n a → UpTo n b → UpTo n result }
{
    Some(a?.max(b?))
}

// High more; with no upper end there is no limit.
fn later(interval: Interval, a: Option<usize>) -> Option<usize>
    requires { UpTo 4096 a }
    ensures same { horizon_for result ≡ later (interval_for interval) (horizon_for a) }
    ensures small { (n : ℕ) → UpTo n a → UpTo (n + 256) result }
{
    if endless(interval) {
        return None;
    }
    Some(interval.high as usize + a?)
}

// The horizon of record l; none past the table.
fn entry(minutes: &[Option<usize>], l: u8) -> Option<usize>
    ensures { result ≡ get_or minutes.now l None }
{
    minutes.get(l as usize).copied().flatten()
}

// The horizon of a record, from those of the records before it.
fn record_entry(record: Record, minutes: &[Option<usize>], k: usize) -> Option<usize>
    requires { (k < most_records) × Small minutes.now k }
    ensures same { OfRecord «record» minutes.now result }
    ensures small { UpTo (256 * (k + 1)) result }
{
    let left = entry(minutes, record.left);
    let both = larger(left, entry(minutes, record.right));
    match record.kind {
        Kind::True | Kind::False | Kind::Signal => Some(0),
        Kind::Next => later(record.interval, left),
        Kind::Until => later(record.interval, both),
        Kind::Previous => left,
        Kind::And | Kind::Xor | Kind::Since | Kind::Other(_) => both,
    }
}

// How long the rule of the first records can stay open. The loop stays over k, and the table an array: each record's
// horizon is found from those before it in the same table.
pub(crate) fn horizon_in(rule: &[u8], records: usize) -> Option<usize>
    requires { (0 < records) × (records ≤ most_records) }
    ensures { horizon_for result ≡ horizon (rule_in rule.now records) }
{
    let mut minutes = [None; Watcher::RECORDS];
    for k in 0..records {
        minutes[k] = record_entry(record_at(rule, k), &minutes, k);
    }
    minutes[records - 1]
}
