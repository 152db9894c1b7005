// The plain engine: the reader's answers, read one byte at a time. It is written to be checked by eye against document 01.
//
// How to read it. `advance` is a call: a bad state is refused (`sound`), an end that is due is told, and else a piece is read (`read`). `read` is the only loop. It
// holds one value, `Known` (src/known): all that is known of the piece from its bytes so far. Of each byte it asks whether the piece ends there (`Known::ends`), and if not,
// what is known with that byte (`Known::tick`). It never looks at a byte behind the one that it is at, and takes each byte once. Beside it stands one byte of the open name,
// which lies before it (`same`). Where the piece ends, or the document does, what is known tells the answer (src/told): a function for each kind of piece, in the
// order in which document 01 refuses.
//
// The byte with which a piece ends, or before which it ends, is not taken: what is known is then of the bytes before it. `&` and `|` join tests of which all are made; none of them can fail.
// What else is called: `byte_at` of `ground` (0 past the end), `is_whitespace` of `white`, and of `state` the limits, `Span::size` and `Span::inner`, and the makers that write a reader's
// fields (`event`, `refuse`, `stop`, `end`, `bad`, `with_depth`); `end` tells end of file, or 18.
#![tactic(auto)]

mod known;
mod told;

ghost use Rattle.std.specs.Prelude.{◌≡◌, ◌+◌, ◌*◌, ◌≤◌, ◌<◌, length};
ghost use Rattle.state.specs.Limits.{slots};
ghost use Rattle.reader.specs.Names.{latest as latest_of, pushed};
ghost use Rattle.reader.specs.Sound.{is_in_place, sound as sound_of};
ghost use Rattle.reader.specs.Step.{step, step_phase, Stepped};
ghost use Rattle.plain.specs.Known.{same_of};
ghost use Rattle.plain.specs.Asked.{Faces, Readable, Placed, read_from};

use crate::known::Known;
use crate::told::{close_empty, closed, unclosed};
use ground::byte_at;
use state::limits::{LONGEST, SLOTS, capacity};
use state::place::{Depth, Span};
use state::run::{Phase, Reader, Step};

// The next answer, and the reader after it. `document` and `stack` are those of the calls before; the stack holds the open names, two slots to a name, and a
// Start writes its name there.
pub fn advance(reader: Reader, document: &[u8], stack: &mut [usize]) -> Step
    ensures { Stepped document.now stack.old reader result stack.new }
{
    let step = answer(reader, document, stack);
    let said = step.answer;
    let values = said.values();
    // a Start
    if values.kind == 1 {
        let from = values.content.from;
        let to = from + values.name;
        push(stack, reader.depth, Span { from, to });
    }
    step
}

// Writes a name's two numbers, with `depth` names below it.
fn push(stack: &mut [usize], depth: Depth, name: Span)
    requires { depth.0 * slots + 1 < length stack.old }
    ensures { stack.new ≡ pushed stack.old depth.0 name }
{
    let i = depth.0 * SLOTS;
    stack[i] = name.from;
    stack[i + 1] = name.to;
}

// The answer and the reader after it. The stack is only read here.
fn answer(reader: Reader, document: &[u8], stack: &[usize]) -> Step
    ensures { result ≡ step document.now stack.now reader }
{
    if sound(reader, document, stack) {
        let depth = reader.depth;
        let last = latest(stack, depth);
        by_phase(reader, document, last, capacity(stack.len()))
    } else {
        reader.bad()
    }
}

// Whether the state may be read on from, over this document and this stack. At depth 0 the latest name is 0..0, and passes.
fn sound(reader: Reader, document: &[u8], stack: &[usize]) -> bool
    ensures { result ≡ sound_of document.now stack.now reader }
{
    let length = document.len();
    let at = reader.position.0;
    let depth = reader.depth;
    let most = capacity(stack.len());
    if (reader.length == length) & (length <= LONGEST) & (at <= length) & (depth.0 <= most.0) {
        let last = latest(stack, depth);
        (last.from <= last.to) & (last.to <= at) & in_place(reader, document)
    } else {
        false
    }
}

// Whether the phase may stand at the position and the depth.
fn in_place(reader: Reader, document: &[u8]) -> bool
    ensures { result ≡ is_in_place document.now reader }
{
    let phase = reader.phase;
    let at = reader.position.0;
    let names = reader.depth.0;
    match phase {
        Phase::Init => (at == 0) & (names == 0),
        Phase::InsideText => true,
        Phase::InsideMarkup => byte_at(document, at) == b'<',
        Phase::InsideRef => byte_at(document, at) == b'&',
        Phase::InsideEmpty => 0 < names,
        Phase::Done => true,
    }
}

// The latest open name; 0..0 where none is open.
fn latest(stack: &[usize], depth: Depth) -> Span
    requires { depth.0 * slots ≤ length stack.now }
    ensures { result ≡ latest_of stack.now depth.0 }
{
    if depth.0 == 0 {
        return Span { from: 0, to: 0 };
    }
    let i = (depth.0 - 1) * SLOTS;
    let from = stack[i];
    let to = stack[i + 1];
    Span { from, to }
}

// By the phase. `last` is the latest open name, and `room` how many names may be open.
fn by_phase(reader: Reader, document: &[u8], last: Span, room: Depth) -> Step
    requires { Placed document.now reader last }
    ensures { result ≡ step_phase document.now reader last room }
{
    let phase = reader.phase;
    let at = reader.position.0;
    match phase {
        Phase::Init => read(reader, document, last, room, true),
        Phase::InsideEmpty => close_empty(reader, last),
        Phase::Done => reader.end(last, Span { from: at, to: at }),
        _ => read(reader, document, last, room, false),
    }
}

// Reads a piece, byte by byte. `mark` says that a byte order mark may stand in front.
fn read(reader: Reader, document: &[u8], last: Span, room: Depth, mark: bool) -> Step
    requires { Readable document.now reader last mark }
    ensures { result ≡ read_from document.now reader last room mark }
{
    let trim = reader.settings.trim_text_start;
    let mut known = Known::fresh(reader.position.0, mark);
    while known.at < document.len() {
        let at = known.at;
        let b = document[at];
        if known.ends(b) {
            return closed(reader, known, b, last, room);
        }
        known = known.tick(b, trim, same(document, known, last, b));
    }
    unclosed(reader, known, last, room)
}

// Whether a byte behind `</` is the one of the open name that stands against it. It is asked of every piece from its third byte on, and counts in a closing tag alone.
// (Behind the open name's end a byte before this one is read, and does not count.)
fn same(document: &[u8], known: Known, last: Span, b: u8) -> bool
    requires { Faces known last }
    ensures { result ≡ same_of document.now known last b }
{
    let size = known.size();
    if size < 2 {
        return true;
    }
    let at = last.from + (size - 2);
    (at < last.to) & (byte_at(document, at) == b)
}
