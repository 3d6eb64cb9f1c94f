// Runs into refusals 7, 12 and 10, which no lists and no log bring up: areas of another length, states that are
// damaged and a closed watcher; and asks where the scratch is dirty. Each answer is held to the number given here, and
// those that are right are counted.
#![tactic(auto)]

mod damaged;
mod given;
mod scratch;
mod tried;

ghost use Rattle.std.specs.Prelude.{◌≤◌, ◌+◌};

use crate::given::{RULE_A, SIGNALS, closed_a, running_a};
use crate::tried::Tried;
use std::io;
use watcher::state::Watcher;

impl<P: Print> Tried<'_, P> {
    // Holds another area to 7: starting, and the other calls of a running, a closed and a broken fresh state.
    // 7 comes before 12, 10 and 11.
    fn area_refused(
        &mut self,
        running: Watcher,
        closed: Watcher,
        other: &mut [u64],
    ) -> io::Result<()>
        ensures { self.new.right ≤ self.old.right + 13 }
    {
        let started = Watcher::start(&RULE_A, &SIGNALS, other);
        self.hold(started.found.map(|()| None), 7)?;
        for watcher in [running, closed, started.next] {
            self.refused(7, watcher, other)?;
        }
        Ok(())
    }
}

fn main(rt: HostRuntime) -> io::Result<()> {
    let mut area = [0u64; Watcher::WORDS];
    let closed = closed_a(&mut area);
    let running = running_a(&mut area);
    let mut tried = Tried { rt: &rt, right: 0 };
    tried.area_refused(running, closed, &mut [0u64; Watcher::WORDS - 1])?;
    tried.area_refused(running, closed, &mut [0u64; Watcher::WORDS + 1])?;
    tried.line("refused 7")?;
    tried.states_refused(running, &mut area)?;
    tried.line("refused 12")?;
    let closed = closed_a(&mut area);
    tried.refused(10, closed, &mut area)?;
    tried.line("refused 10")?;
    tried.dirty_scratch(&mut area)?;
    tried.line("asked with a dirty scratch")
}
