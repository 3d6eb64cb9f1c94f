// What a rule means over a log, how it is rewritten record by record, and the theorems between. It has no code.
#![tactic(auto)]
