// No code: the way down after a host's calls. `specs/` has the statements' words, `proofs/` the theorems.
#![tactic(auto)]
