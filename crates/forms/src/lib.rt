// Forms over up to 12 parameters as rows of 64 words, and rows in a lent area. Rows, tables and areas stay arrays and
// slices of words: memory is fixed, and nothing is taken from a heap.
#![tactic(auto)]

pub mod area;
pub mod join;
pub mod rows;
mod scan;
pub mod table;
