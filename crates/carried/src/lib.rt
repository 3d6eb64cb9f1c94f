// No code: what the exports answer and write, by the owner's demands.
#![tactic(auto)]
