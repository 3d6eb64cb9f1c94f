// What the exports for C and Rust do, over numbers and lent lists.
#![tactic(auto)]

pub mod calls;
mod codes;
mod layout;
pub mod signals;
pub mod whole;
