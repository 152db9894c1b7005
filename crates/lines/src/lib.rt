// How the programs read cases from lines and write answers into lines.
#![tactic(auto)]

pub mod line;
pub mod settings;
pub mod whole;
pub mod words;
