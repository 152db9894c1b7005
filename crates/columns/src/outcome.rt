// How a reading ends: with the document, or with the first refusal from the left.
ghost use Rattle.std.specs.Prelude.{◌≡◌};
ghost use Rattle.columns.specs.Outcome.{is_refused, refusal_of, values_of};

use state::answer::{Refusal, Values};
use state::place::Span;

#[derive(Clone, Copy)]
pub enum Outcome {
    // The whole document was read.
    Whole,
    // The reader refused it.
    ReaderRefused(Refusal),
    // This piece is text that is no time, or a reference.
    BadTime(Span),
    // This piece is one more time than the column has slots.
    ColumnFull(Span),
}

// The numbers of the column's own refusals.
const BAD_TIME: usize = 30;

const COLUMN_FULL: usize = 31;

impl Outcome {
    pub fn is_refused(self) -> bool
        ensures { result ≡ is_refused self }
    {
        match self {
            Outcome::Whole => false,
            Outcome::ReaderRefused(_) => true,
            Outcome::BadTime(_) => true,
            Outcome::ColumnFull(_) => true,
        }
    }

    // The refusal as the numbers of an answer; all are 0 where there is none.
    pub fn values(self) -> Values
        ensures { result ≡ values_of self }
    {
        match self {
            Outcome::Whole => refusal(0, Span { from: 0, to: 0 }),
            Outcome::ReaderRefused(refusal) => refusal.values(),
            Outcome::BadTime(piece) => refusal(BAD_TIME, piece),
            Outcome::ColumnFull(piece) => refusal(COLUMN_FULL, piece),
        }
    }
}

// A refusal of a piece, at its start.
fn refusal(number: usize, piece: Span) -> Values
    ensures { result ≡ refusal_of number piece }
{
    let none = Span { from: 0, to: 0 };
    Values {
        kind: 0,
        number,
        place: piece.from,
        piece,
        content: none,
        name: 0,
        expected: none,
        found: none,
    }
}
