// What is wanted besides the lines.
use console::{arg, same};
use std::env::Env;

// Nothing, the past rows and the remainder after each line, or more behind the word of each record.
#[derive(Clone, Copy, Debug, PartialEq, Eq)]
pub(crate) enum Wanted {
    Nothing,
    Rows,
    More,
}

// What is wanted by an argument: nothing by one that is missing, and by any other word.
pub(crate) fn wanted_by(rt: &impl Env, argument: usize) -> Wanted {
    let mut word = [0u8; 8];
    let n = arg(rt, argument, &mut word);
    if same(&word[..n], b"rows") {
        Wanted::Rows
    } else if same(&word[..n], b"more") {
        Wanted::More
    } else {
        Wanted::Nothing
    }
}
