// The record of a name that is open, and what is answered: records, or the refusal of what is lent.
ghost use Rattle.std.specs.Prelude.{◌≡◌};
ghost use Rattle.rows.specs.Answers.{bad_number, given_number, filled_number, count_of};

use state::answer::Error;
use state::place::{Depth, Position};

// Where the name starts and ends in the document, and how deep it lies: the outermost at 1.
#[derive(Clone, Copy)]
pub struct Row {
    pub start: Position,
    pub end: Position,
    pub depth: Depth,
}

// One record.
#[derive(Clone, Copy)]
pub enum Given {
    Row(Row),
    BadState,
}

// How many records of a list were filled.
#[derive(Clone, Copy)]
pub enum Filled {
    Rows(usize),
    BadState,
}

// The number of the refusal.
fn bad_number() -> usize
    ensures { result ≡ bad_number }
{
    let bad = Error::BadState;
    let said = bad.numbered();
    said.number
}

impl Given {
    // The number of the refusal; 0 where there is none.
    pub fn number(self) -> usize
        ensures { result ≡ given_number self }
    {
        match self {
            Given::Row(_) => 0,
            Given::BadState => bad_number(),
        }
    }
}

impl Filled {
    // The number of the refusal; 0 where there is none.
    pub fn number(self) -> usize
        ensures { result ≡ filled_number self }
    {
        match self {
            Filled::Rows(_) => 0,
            Filled::BadState => bad_number(),
        }
    }

    // How many were filled: none where it was refused.
    pub fn count(self) -> usize
        ensures { result ≡ count_of self }
    {
        match self {
            Filled::Rows(count) => count,
            Filled::BadState => 0,
        }
    }
}
