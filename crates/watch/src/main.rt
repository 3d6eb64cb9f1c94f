// The watching program: for each record of a log its time and the word, and at the end the verdict.
#![tactic(auto)]

mod run;
mod wanted;

use crate::run::run;
use crate::wanted::wanted_by;
use console::{read_list, tell_usage};
use std::io;
use watcher::state::Watcher;

// Opens rule, signals and log, in that order of arguments, and prints the lines, with what is wanted by a fourth.
// A list that fills its buffer is longer than any, and refused. Lists are read into arrays: memory is fixed.
fn main(rt: HostRuntime) -> io::Result<()> {
    tell_usage(
        &rt,
        &rt.stderr(),
        b"usage: watch RULE SIGNALS LOG [rows | more]\n",
    )?;
    let mut rule = [0u8; Watcher::LIST_BYTES + 1];
    let mut signals = [0u8; Watcher::LIST_BYTES + 1];
    let n = read_list(&rt, 1, &mut rule);
    let k = read_list(&rt, 2, &mut signals);
    run(&rt, &rule[..n], &signals[..k], wanted_by(&rt, 4))
}
