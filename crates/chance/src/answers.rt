// One log through the watcher, with a letter for each answer.
pub(crate) mod letters;
pub(crate) mod watch;
