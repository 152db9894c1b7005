// Closing tags, and the ends of expanded empty elements.
ghost use Rattle.std.specs.Prelude.{◌≡◌};
ghost use Rattle.emit.specs.End.{closing_name, differs as differs_of, end_event, unmatched as unmatched_of, matched as matched_of, emit_end, close_expanded_empty};

use ground::{part, same};
use state::answer::{Error, Event, Kind};
use state::config::Config;
use state::place::{Position, Span};
use state::run::{Phase, Reader, Step};
use white::trim_end;

// A closing tag. `last` is the latest open name.
pub fn emit_end(reader: Reader, document: &[u8], last: Span, piece: Span) -> Step
    ensures { result ≡ emit_end document.now reader last piece }
{
    let settings = reader.settings;
    let name = name(document, settings, piece.inner(2, 1));
    if reader.depth.0 == 0 {
        unmatched(reader, piece, name)
    } else {
        let depth = reader.depth;
        let fewer = reader.with_depth(depth.fewer());
        matched(fewer, document, last, piece, name)
    }
}

// What stands between `</` and `>`, without the white space at its end if that is trimmed and something else is there.
fn name(document: &[u8], settings: Config, content: Span) -> Span
    ensures { result ≡ closing_name document.now settings content }
{
    if settings.trim_markup_names_in_closing_tags {
        let to = trim_end(document, content.from, content.to);
        if to == content.from {
            content
        } else {
            Span {
                from: content.from,
                to,
            }
        }
    } else {
        content
    }
}

// An End with its name for content.
fn end(reader: Reader, piece: Span, name: Span) -> Step
    ensures { result ≡ end_event reader piece name }
{
    let size = name.size();
    reader.event(
        Event {
            kind: Kind::End,
            piece,
            content: name,
            name: size,
        },
        Phase::InsideText,
    )
}

// Where no name is open.
fn unmatched(reader: Reader, piece: Span, name: Span) -> Step
    ensures { result ≡ unmatched_of reader piece name }
{
    if reader.settings.allow_unmatched_ends {
        end(reader, piece, name)
    } else {
        reader.refuse(
            Error::UnmatchedEndTag(name),
            Position(piece.from),
            piece,
            Phase::InsideText,
        )
    }
}

// Where `last` was open, and is taken away.
fn matched(reader: Reader, document: &[u8], last: Span, piece: Span, name: Span) -> Step
    ensures { result ≡ matched_of document.now reader last piece name }
{
    let settings = reader.settings;
    if differs(document, settings, last, name) {
        reader.refuse(
            Error::MismatchedEndTag {
                expected: last,
                found: name,
            },
            Position(piece.from),
            piece,
            Phase::InsideText,
        )
    } else {
        end(reader, piece, name)
    }
}

// Whether names are checked and the two have other bytes.
fn differs(document: &[u8], settings: Config, last: Span, name: Span) -> bool
    ensures { result ≡ differs_of document.now settings last name }
{
    if settings.check_end_names {
        !same(
            part(document, last.from, last.to),
            part(document, name.from, name.to),
        )
    } else {
        false
    }
}

// The End of an empty element that was told as a Start, with the latest open name.
pub fn close_expanded_empty(reader: Reader, last: Span) -> Step
    ensures { result ≡ close_expanded_empty reader last }
{
    let at = reader.position.0;
    let depth = reader.depth;
    let fewer = reader.with_depth(depth.fewer());
    end(fewer, Span { from: at, to: at }, last)
}
