// The answers of a call: an event or a refusal, and the paper's numbers for each.
ghost use Rattle.std.specs.Prelude.{◌≡◌};
ghost use Rattle.state.specs.Values.{kind_number, spanless as spanless_of, numbered_of, event_values, refusal_values, values_of};

use crate::place::{Position, Span};

#[derive(Clone, Copy)]
pub enum Kind {
    Start,
    End,
    Empty,
    Text,
    GeneralRef,
    Comment,
    CData,
    Decl,
    PI,
    Eof,
}

#[derive(Clone, Copy)]
pub struct Event {
    pub kind: Kind,
    pub piece: Span,
    pub content: Span,
    // How many bytes of the content are the name.
    pub name: usize,
}

#[derive(Clone, Copy)]
pub enum Error {
    UnclosedTag,
    UnclosedSingleQuotedAttributeValue,
    UnclosedDoubleQuotedAttributeValue,
    UnclosedComment,
    UnclosedCData,
    UnclosedPI,
    UnclosedXmlDecl,
    InvalidBangMarkup,
    DoubleHyphenInComment,
    MismatchedEndTag { expected: Span, found: Span },
    UnmatchedEndTag(Span),
    UnclosedReference,
    Encoding,
    DocType,
    NameStackFull,
    SliceTooLong,
    BadState,
    UnclosedElements,
}

#[derive(Clone, Copy)]
pub struct Refusal {
    pub error: Error,
    pub place: Position,
    pub piece: Span,
}

#[derive(Clone, Copy)]
pub enum Answer {
    Event(Event),
    Refused(Refusal),
}

// A refusal's number; of a mismatch the name that was open and the one in the closing tag; of an unmatched end the one in the closing tag.
#[derive(Clone, Copy)]
pub struct Numbered {
    pub number: usize,
    pub expected: Span,
    pub found: Span,
}

// An answer as numbers. Of an event `number` and `place` are 0; of a refusal `kind`, `content` and `name` are; and of every answer but the two with spans of
// their own `expected` and `found` are.
#[derive(Clone, Copy)]
pub struct Values {
    pub kind: usize,
    pub number: usize,
    pub place: usize,
    pub piece: Span,
    pub content: Span,
    pub name: usize,
    pub expected: Span,
    pub found: Span,
}

impl Kind {
    // A kind's number, from 1 on.
    pub fn number(self) -> usize
        ensures { result ≡ kind_number self }
    {
        match self {
            Kind::Start => 1,
            Kind::End => 2,
            Kind::Empty => 3,
            Kind::Text => 4,
            Kind::GeneralRef => 5,
            Kind::Comment => 6,
            Kind::CData => 7,
            Kind::Decl => 8,
            Kind::PI => 9,
            Kind::Eof => 10,
        }
    }
}

// A refusal's number, with no spans.
fn spanless(number: usize) -> Numbered
    ensures { result ≡ spanless_of number }
{
    let none = Span { from: 0, to: 0 };
    Numbered {
        number,
        expected: none,
        found: none,
    }
}

impl Error {
    // The number of a refusal, and its spans.
    pub fn numbered(self) -> Numbered
        ensures { result ≡ numbered_of self }
    {
        match self {
            Error::UnclosedTag => spanless(1),
            Error::UnclosedSingleQuotedAttributeValue => spanless(2),
            Error::UnclosedDoubleQuotedAttributeValue => spanless(3),
            Error::UnclosedComment => spanless(4),
            Error::UnclosedCData => spanless(5),
            Error::UnclosedPI => spanless(6),
            Error::UnclosedXmlDecl => spanless(7),
            Error::InvalidBangMarkup => spanless(8),
            Error::DoubleHyphenInComment => spanless(9),
            Error::MismatchedEndTag { expected, found } => Numbered {
                number: 10,
                expected,
                found,
            },
            Error::UnmatchedEndTag(found) => Numbered {
                number: 11,
                expected: Span { from: 0, to: 0 },
                found,
            },
            Error::UnclosedReference => spanless(12),
            Error::Encoding => spanless(13),
            Error::DocType => spanless(14),
            Error::NameStackFull => spanless(15),
            Error::SliceTooLong => spanless(16),
            Error::BadState => spanless(17),
            Error::UnclosedElements => spanless(18),
        }
    }
}

impl Event {
    // The event as numbers.
    pub fn values(self) -> Values
        ensures { result ≡ event_values self }
    {
        let none = Span { from: 0, to: 0 };
        let kind = self.kind;
        let kind = kind.number();
        let piece = self.piece;
        let content = self.content;
        Values {
            kind,
            number: 0,
            place: 0,
            piece,
            content,
            name: self.name,
            expected: none,
            found: none,
        }
    }
}

impl Refusal {
    // The refusal as numbers.
    pub fn values(self) -> Values
        ensures { result ≡ refusal_values self }
    {
        let none = Span { from: 0, to: 0 };
        let error = self.error;
        let place = self.place;
        let piece = self.piece;
        let said = error.numbered();
        let expected = said.expected;
        let found = said.found;
        Values {
            kind: 0,
            number: said.number,
            place: place.0,
            piece,
            content: none,
            name: 0,
            expected,
            found,
        }
    }
}

impl Answer {
    // The answer as numbers.
    pub fn values(self) -> Values
        ensures { result ≡ values_of self }
    {
        match self {
            Answer::Event(event) => event.values(),
            Answer::Refused(refusal) => refusal.values(),
        }
    }
}
