// The types of the reader: places and depths, settings, answers, the reader's own state, and the few makers that write its fields.
#![tactic(auto)]

pub mod answer;
pub mod config;
pub mod limits;
pub mod place;
pub mod run;
