// The ground: laws on numbers, loops, lists, bits and bytes, and the few functions on bytes that all share.
#![tactic(auto)]

pub mod bytes;
