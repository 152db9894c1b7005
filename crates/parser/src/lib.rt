// The scans for the end of a piece, one file for each. Each starts at a place of the document, asks nothing of its caller, and answers where the byte
// stands that ends the piece, or in what state the bytes ended. From a place at or past the end there are no bytes, and the state is the first one. Besides
// these, `hyphens` looks for two hyphens in a row, in the same way.
#![tactic(auto)]

pub mod cdata;
pub mod comment;
pub mod element;
pub mod first;
pub mod hyphens;
pub mod marks;
pub mod pi;
pub mod reference;
pub mod text;
