// Processing instructions and declarations.
ghost use Rattle.std.specs.Prelude.{◌≡◌};
ghost use Rattle.ground.specs.Part.{part as part_of};
ghost use Rattle.emit.specs.Question.{is_decl, question_event, emit_question_mark, unclosed_question};

use ground::{byte_at, part, starts_with};
use state::answer::{Error, Event, Kind};
use state::place::{Position, Span};
use state::run::{Phase, Reader, Step};
use white::{is_whitespace, name_len};

// A piece that opens with `<?`.
pub fn emit_question_mark(reader: Reader, document: &[u8], piece: Span) -> Step
    ensures { result ≡ emit_question_mark document.now reader piece }
{
    if piece.size() < 4 {
        reader.stop(Error::UnclosedPI, Position(piece.from), piece)
    } else {
        let content = piece.inner(2, 2);
        let event = question_event(document, piece, content);
        reader.event(event, Phase::InsideText)
    }
}

// A declaration, or a processing instruction with its name's length.
fn question_event(document: &[u8], piece: Span, content: Span) -> Event
    ensures { result ≡ question_event document.now piece content }
{
    if is_decl(document, content) {
        Event {
            kind: Kind::Decl,
            piece,
            content,
            name: 3,
        }
    } else {
        let name = name_len(document, content.from, content.to);
        Event {
            kind: Kind::PI,
            piece,
            content,
            name,
        }
    }
}

// Whether the content is `xml`, or begins with `xml` and white space.
fn is_decl(document: &[u8], content: Span) -> bool
    ensures { result ≡ is_decl (part_of document.now content.from content.to) }
{
    let bytes = part(document, content.from, content.to);
    if starts_with(bytes, 0, b"xml") {
        if bytes.len() == 3 {
            true
        } else {
            is_whitespace(byte_at(bytes, 3))
        }
    } else {
        false
    }
}

// What is not closed, where the piece that starts at `at` has no end: a declaration or a processing instruction.
pub fn unclosed(document: &[u8], at: Position) -> Error
    ensures { result ≡ unclosed_question document.now at }
{
    if starts_with(document, at.0, b"<?xml") {
        let next = at.0 + 5;
        if document.len() <= next {
            Error::UnclosedXmlDecl
        } else {
            let b = byte_at(document, next);
            if b == b'?' {
                Error::UnclosedXmlDecl
            } else if is_whitespace(b) {
                Error::UnclosedXmlDecl
            } else {
                Error::UnclosedPI
            }
        }
    } else {
        Error::UnclosedPI
    }
}
