// No code: a document that arrives in chunks. `specs/` has the statements' words, `proofs/` the theorems.
#![tactic(auto)]
