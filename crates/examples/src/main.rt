// Runs the watcher on document 01's examples, and on what it and document 02 say of readings.
#![tactic(auto)]

mod answers;
mod given;
mod listed;
mod readings;
mod told;

use crate::listed::Runs;
use crate::readings::rows;
use std::io;
use watcher::state::Watcher;

fn main(rt: HostRuntime) -> io::Result<()> {
    let mut area = [0u64; Watcher::WORDS];
    let mut runs = Runs {
        rt: &rt,
        area: &mut area,
    };
    runs.examples()?;
    rows(&rt)?;
    runs.readings()
}
