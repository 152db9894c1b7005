// Opening tags and empty elements.
ghost use Rattle.std.specs.Prelude.{◌≡◌};
ghost use Rattle.emit.specs.Start.{slashed as slashed_of, tag as tag_of, opening as opening_of, emit_start};

use ground::byte_at;
use state::answer::{Error, Event, Kind};
use state::place::{Depth, Position, Span};
use state::run::{Phase, Reader, Step};
use white::name_len;

// A tag that is no closing one. `capacity` is how many names may be open.
pub fn emit_start(reader: Reader, document: &[u8], capacity: Depth, piece: Span) -> Step
    ensures { result ≡ emit_start document.now reader capacity piece }
{
    if slashed(document, piece) {
        let content = piece.inner(1, 2);
        if reader.settings.expand_empty_elements {
            let event = tag(document, Kind::Start, piece, content);
            opening(reader, capacity, event, Phase::InsideEmpty)
        } else {
            let event = tag(document, Kind::Empty, piece, content);
            reader.event(event, Phase::InsideText)
        }
    } else {
        let content = piece.inner(1, 1);
        let event = tag(document, Kind::Start, piece, content);
        opening(reader, capacity, event, Phase::InsideText)
    }
}

// Whether the piece ends in `/>`.
fn slashed(document: &[u8], piece: Span) -> bool
    ensures { result ≡ slashed_of document.now piece }
{
    let content = piece.inner(1, 1);
    if content.from < content.to {
        byte_at(document, content.to - 1) == b'/'
    } else {
        false
    }
}

// The event of a tag, with its name's length.
fn tag(document: &[u8], kind: Kind, piece: Span, content: Span) -> Event
    ensures { result ≡ tag_of document.now kind piece content }
{
    let name = name_len(document, content.from, content.to);
    Event {
        kind,
        piece,
        content,
        name,
    }
}

// A name is opened where there is room for it.
fn opening(reader: Reader, capacity: Depth, event: Event, next: Phase) -> Step
    ensures { result ≡ opening_of reader capacity event next }
{
    let depth = reader.depth;
    if depth.0 < capacity.0 {
        let more = reader.with_depth(Depth(depth.0 + 1));
        more.event(event, next)
    } else {
        let from = event.piece.from;
        reader.stop(
            Error::NameStackFull,
            Position(from),
            Span { from, to: from },
        )
    }
}
