// No code: what follows for whoever calls the reader. `specs/` has the statements' words, `proofs/` the theorems.
#![tactic(auto)]
