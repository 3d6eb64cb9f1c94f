// The lines that the programs print, each put into a lent buffer.
#![tactic(auto)]

mod blind;
mod line;
mod records;
pub mod rows;
mod text;
pub mod turns;
