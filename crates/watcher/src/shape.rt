// The rows that a state must have by its phase, and the whole of check 12.
ghost use Rattle.std.specs.Prelude.{◌≡◌, false};
ghost use Rattle.rewriting.specs.Shape.{bits_above};
ghost use Rattle.watcher.specs.Limits.{most_parameters};
ghost use Rattle.watcher.specs.Numbers.{stage_of};
ghost use Rattle.watcher.specs.State.{parameters_of, start_refuses, wrong_in_phase, broken_state};

use crate::held::{not_zeros_behind, signals_above, start_refuses};
use crate::state::{Phase, Watcher};
use rewriting::rule::{Rule, parameters_in};
use rewriting::shape::{bits_above, not_zero_from, wrong_rows};
use rewriting::step::{Moment, Plan};

// Whether a row is not what it must be in the state's phase. It makes the plan itself, since m is counted already.
#[tactic(auto, using(crate::proofs::Breaking::own_rows), unfolding(crate::specs::Numbers::stage_of))]
fn wrong_in_phase(watcher: Watcher, m: usize, area: &[u64]) -> bool
    requires { (start_refuses watcher ≡ false) × (m ≡ parameters_of watcher)
        × (bits_above most_parameters m area.now ≡ false) }
    ensures { result ≡ wrong_in_phase watcher area.now (stage_of watcher.phase) }
{
    match watcher.phase {
        Phase::Fresh => not_zero_from(Watcher::PARAMETERS, 0, area),
        Phase::Running { time, signals } => {
            let plan = Plan {
                records: watcher.records,
                m,
                places: Watcher::PARAMETERS,
            };
            let last = Moment { time, signals };
            let rule = Rule {
                list: &watcher.rule,
                plan,
            };
            wrong_rows(rule, last, area)
        }
        Phase::Closed(_) => false,
    }
}

// Whether the state that is handed in is broken: refusal 12.
#[tactic(auto, using(crate::proofs::Breaking::own_lists), unfolding(crate::specs::State::broken_state))]
pub(crate) fn broken_state(watcher: Watcher, area: &[u64]) -> bool
    ensures { result ≡ broken_state watcher area.now }
{
    if start_refuses(watcher)
        || not_zeros_behind(watcher)
        || signals_above(watcher.signals, watcher.phase)
    {
        return true;
    }
    let m = parameters_in(&watcher.rule, watcher.records);
    if bits_above(Watcher::PARAMETERS, m, area) {
        return true;
    }
    not_zero_from(Watcher::PARAMETERS, m, area) || wrong_in_phase(watcher, m, area)
}
