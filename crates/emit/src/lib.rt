// From a piece of the document, closed and well-formed UTF-8, to the step: one file for what each kind of piece becomes. No function here asks that the
// piece be one.
#![tactic(auto)]

pub mod bang;
pub mod end;
pub mod question;
pub mod reference;
pub mod start;
pub mod text;
