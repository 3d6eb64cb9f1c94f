// Cases by chance, through the watcher and through the second evaluator.
mod agree;
pub(crate) mod case;
pub(crate) mod compare;
mod tests;
