// No code: the owner's demands over bytes, the bad watchers and the starred examples, by what the watcher states.
#![tactic(auto)]
