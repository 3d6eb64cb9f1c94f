// The watcher: its state with its limits, the checks of rule list, signal list, log record and state, and the calls.
#![tactic(auto)]

pub mod calls;
mod held;
mod horizon;
mod lists;
pub mod readings;
pub mod refusals;
mod shape;
pub mod signals;
pub mod state;
mod turns;
