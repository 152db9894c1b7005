// Text.
ghost use Rattle.std.specs.Prelude.{◌≡◌};
ghost use Rattle.emit.specs.Text.{text_content, emit_text, emit_last_text};

use state::answer::{Event, Kind};
use state::config::Config;
use state::place::Span;
use state::run::{Phase, Reader, Step};
use white::trim_end;

// Text that ends before a `<` or a `&`, in the phase that comes next.
pub fn emit_text(reader: Reader, document: &[u8], piece: Span, next: Phase) -> Step
    ensures { result ≡ emit_text document.now reader piece next }
{
    let settings = reader.settings;
    let content = content(document, settings, piece);
    reader.event(
        Event {
            kind: Kind::Text,
            piece,
            content,
            name: 0,
        },
        next,
    )
}

// Text that the document ends with: end of file where its content is empty. `last` is the latest open name.
pub fn emit_last_text(reader: Reader, document: &[u8], last: Span, piece: Span) -> Step
    ensures { result ≡ emit_last_text document.now reader last piece }
{
    let settings = reader.settings;
    let content = content(document, settings, piece);
    if content.size() == 0 {
        reader.end(last, piece)
    } else {
        emit_text(reader, document, piece, Phase::Done)
    }
}

// The piece, without the white space at its end if that is trimmed.
fn content(document: &[u8], settings: Config, piece: Span) -> Span
    ensures { result ≡ text_content document.now settings piece }
{
    if settings.trim_text_end {
        Span {
            from: piece.from,
            to: trim_end(document, piece.from, piece.to),
        }
    } else {
        piece
    }
}
