// Which states are refused.
ghost use Rattle.std.specs.Prelude.{◌≡◌};
ghost use Rattle.reader.specs.Sound.{is_in_place, sound as sound_of};

use crate::names::latest;
use ground::byte_at;
use state::limits::{LONGEST, capacity};
use state::run::{Phase, Reader};

// Whether the state is not refused over this document and this stack.
pub fn sound(reader: Reader, document: &[u8], stack: &[usize]) -> bool
    ensures { result ≡ sound_of document.now stack.now reader }
{
    let length = document.len();
    let at = reader.position.0;
    if reader.length != length {
        return false;
    }
    if LONGEST < length {
        return false;
    }
    if length < at {
        return false;
    }
    let depth = reader.depth;
    let most = capacity(stack.len());
    if most.0 < depth.0 {
        return false;
    }
    let last = latest(stack, depth);
    if last.to < last.from {
        return false;
    }
    if at < last.to {
        return false;
    }
    in_place(reader, document)
}

// Whether the phase may stand at the position and the depth.
fn in_place(reader: Reader, document: &[u8]) -> bool
    ensures { result ≡ is_in_place document.now reader }
{
    let phase = reader.phase;
    let at = reader.position.0;
    let names = reader.depth.0;
    match phase {
        Phase::Init => { if at == 0 { names == 0 } else { false } }
        Phase::InsideText => true,
        Phase::InsideMarkup => byte_at(document, at) == b'<',
        Phase::InsideRef => byte_at(document, at) == b'&',
        Phase::InsideEmpty => 0 < names,
        Phase::Done => true,
    }
}
