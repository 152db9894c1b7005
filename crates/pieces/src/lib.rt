// The scans for the end of a piece of the document, fed with bytes that arrive one part after the other. Where a scan stands is a value: a call takes it and
// the next bytes, and answers where the scan stands then. However the bytes are cut, the answer is that for the uncut bytes.
#![tactic(auto)]

mod ahead;
pub mod feed;
mod marked;
mod reached;
pub mod scan;
mod tag;
mod text;
