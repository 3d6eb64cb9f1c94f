// Runs the watcher on cases by chance beside a second evaluator, and counts the answers.
#![tactic(auto)]

mod answers;
mod cases;
mod judge;
mod random;
mod tally;

use crate::cases::compare::Comparison;
use crate::tally::Tally;
use std::io;
use watcher::state::Watcher;

fn main(rt: HostRuntime) -> io::Result<()> {
    let mut area = [0u64; Watcher::WORDS];
    let mut comparison = Comparison {
        rt: &rt,
        area: &mut area,
        tally: Tally::default(),
    };
    comparison.random_cases(5000)?;
    let tally = comparison.tally;
    print!(rt; "{tally}")
}
