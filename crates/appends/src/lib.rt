// No code: when a piece may be added to a document, as reading says and as its own bytes tell.
#![tactic(auto)]
