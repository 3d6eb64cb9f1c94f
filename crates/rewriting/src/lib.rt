// One record's rewriting on a lent area: a row by kind, the loops over a rule's records, and which rows are wrong.
#![tactic(auto)]

mod derived;
pub mod ending;
mod form;
pub mod interval;
pub mod kind;
pub mod parts;
mod past;
pub mod rewrite;
mod row;
pub mod rule;
pub mod shape;
pub mod step;
pub mod walk;
