// References.
ghost use Rattle.std.specs.Prelude.{◌≡◌};
ghost use Rattle.emit.specs.Reference.{emit_ref, emit_dangling};

use state::answer::{Error, Event, Kind};
use state::place::{Position, Span};
use state::run::{Phase, Reader, Step};

// A reference from its `&` to its `;`.
pub fn emit_ref(reader: Reader, piece: Span) -> Step
    ensures { result ≡ emit_ref reader piece }
{
    let content = piece.inner(1, 1);
    reader.event(
        Event {
            kind: Kind::GeneralRef,
            piece,
            content,
            name: 0,
        },
        Phase::InsideText,
    )
}

// One that has no `;`.
pub fn emit_dangling(reader: Reader, piece: Span, next: Phase) -> Step
    ensures { result ≡ emit_dangling reader piece next }
{
    if reader.settings.allow_dangling_amp {
        reader.event(
            Event {
                kind: Kind::Text,
                piece,
                content: piece,
                name: 0,
            },
            next,
        )
    } else {
        reader.refuse(Error::UnclosedReference, Position(piece.from), piece, next)
    }
}
