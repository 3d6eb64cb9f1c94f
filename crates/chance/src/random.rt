// Rules, signal lists and logs by chance, the same at each run.
mod dice;
pub(crate) mod lists;
pub(crate) mod logs;
