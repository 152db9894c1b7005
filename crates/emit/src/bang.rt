// Comments and CDATA.
ghost use Rattle.std.specs.Prelude.{◌≡◌};
ghost use Rattle.emit.specs.Bang.{bang_event, checked_comment, emit_comment, emit_cdata};

use ground::starts_with;
use parser::first::Found;
use parser::hyphens::pair_end;
use state::answer::{Error, Event, Kind};
use state::place::{Position, Span};
use state::run::{Phase, Reader, Step};

// A closed piece whose third byte is a hyphen.
pub fn emit_comment(reader: Reader, document: &[u8], piece: Span) -> Step
    ensures { result ≡ emit_comment document.now reader piece }
{
    if starts_with(document, piece.from, b"<!--") {
        let content = piece.inner(4, 3);
        if reader.settings.check_comments {
            checked_comment(reader, document, piece, content)
        } else {
            bang_event(reader, Kind::Comment, piece, content)
        }
    } else {
        reader.stop(Error::UnclosedComment, Position(piece.from), piece)
    }
}

// A closed piece whose third byte is a bracket.
pub fn emit_cdata(reader: Reader, document: &[u8], piece: Span) -> Step
    ensures { result ≡ emit_cdata document.now reader piece }
{
    if starts_with(document, piece.from, b"<![CDATA[") {
        let content = piece.inner(9, 3);
        bang_event(reader, Kind::CData, piece, content)
    } else {
        reader.stop(Error::UnclosedCData, Position(piece.from), piece)
    }
}

// The event of a comment or CDATA.
fn bang_event(reader: Reader, kind: Kind, piece: Span, content: Span) -> Step
    ensures { result ≡ bang_event reader kind piece content }
{
    reader.event(
        Event {
            kind,
            piece,
            content,
            name: 0,
        },
        Phase::InsideText,
    )
}

// A comment that may not have `--` in it, nor a hyphen before its closer; it is refused at the first hyphen of the first pair.
fn checked_comment(reader: Reader, document: &[u8], piece: Span, content: Span) -> Step
    ensures { result ≡ checked_comment document.now reader piece content }
{
    let Found::At(second) = pair_end(document, content.from) else {
        return bang_event(reader, Kind::Comment, piece, content);
    };
    if content.to < second {
        bang_event(reader, Kind::Comment, piece, content)
    } else {
        let first = Position(second - 1);
        reader.refuse(
            Error::DoubleHyphenInComment,
            first,
            piece,
            Phase::InsideText,
        )
    }
}
