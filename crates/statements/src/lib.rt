// No code: the statements of the demands, computed on examples.
#![tactic(auto)]
