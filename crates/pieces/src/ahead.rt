// How far a scan comes in the bytes that it is fed.
ghost use Rattle.std.specs.Prelude.{◌≡◌};
ghost use Rattle.parser.specs.Machine.{scan_at};
ghost use Rattle.pieces.specs.Kinds.{piece_step};
ghost use Rattle.pieces.specs.Ahead.{ahead_of, tag_ahead, marked_ahead, first_ahead};

use crate::marked::{marked_end, seen_end};
use crate::scan::{Kind, State};
use crate::tag::tag_end;
use crate::text::text_on;
use parser::element::element_end;
use parser::marks::marks_end;
use parser::reference::reference_end;
use parser::{element, first, marks};

// The place that is found, in these bytes, or what the scan is in where they end.
#[derive(Clone, Copy)]
pub enum Ahead {
    At(usize),
    Open(State),
}

// From the first byte on, in this state.
pub fn onward(piece: &[u8], state: State) -> Ahead
    ensures { result ≡ ahead_of (scan_at piece_step state piece.now 0) }
{
    match state {
        State::Start => start(piece, 0),
        State::Opened => opened(piece, 0),
        State::Bang => bang(piece, 0),
        State::Tag(quotes) => in_tag(tag_end(piece, 0, quotes)),
        State::Marked(kind, marks) => in_marked(
            kind,
            marked_end(piece, 0, marks, kind.mark(), kind.need()),
        ),
        State::Reference => reference(piece, 0),
        State::Text => in_first(State::Text, text_on(piece, 0)),
    }
}

// The first byte tells what the piece is.
fn start(piece: &[u8], from: usize) -> Ahead
    ensures { result ≡ ahead_of (scan_at piece_step State.Start piece.now from) }
{
    if piece.len() <= from {
        return Ahead::Open(State::Start);
    }
    let b = piece[from];
    match b {
        b'<' => opened(piece, from + 1),
        b'&' => reference(piece, from + 1),
        _ => in_first(State::Text, text_on(piece, from + 1)),
    }
}

// The byte behind `<`.
fn opened(piece: &[u8], from: usize) -> Ahead
    ensures { result ≡ ahead_of (scan_at piece_step State.Opened piece.now from) }
{
    if piece.len() <= from {
        return Ahead::Open(State::Opened);
    }
    let b = piece[from];
    match b {
        b'!' => bang(piece, from + 1),
        b'?' => in_marked(Kind::Pi, seen_end(piece, from + 1, 1, b'?', 1)),
        _ => in_tag(element_end(piece, from)),
    }
}

// The byte behind `<!`: the reader refuses any but two of them at once.
fn bang(piece: &[u8], from: usize) -> Ahead
    ensures { result ≡ ahead_of (scan_at piece_step State.Bang piece.now from) }
{
    if piece.len() <= from {
        return Ahead::Open(State::Bang);
    }
    let b = piece[from];
    match b {
        b'[' => in_marked(Kind::CData, marks_end(piece, from + 1, 0, b']', 2)),
        b'-' => in_marked(Kind::Comment, marks_end(piece, from + 1, 1, b'-', 2)),
        _ => Ahead::At(from),
    }
}

// Behind the `&`.
fn reference(piece: &[u8], from: usize) -> Ahead
    ensures { result ≡ ahead_of (scan_at piece_step State.Reference piece.now from) }
{
    if piece.len() <= from {
        return Ahead::Open(State::Reference);
    }
    let b = piece[from];
    match b {
        b';' => Ahead::At(from),
        b'&' => Ahead::At(from),
        b'<' => Ahead::At(from),
        _ => in_first(State::Reference, reference_end(piece, from)),
    }
}

// What the scan of a tag found.
fn in_tag(found: element::Found) -> Ahead
    ensures { result ≡ tag_ahead found }
{
    match found {
        element::Found::At(place) => Ahead::At(place),
        element::Found::Open(quotes) => Ahead::Open(State::Tag(quotes)),
    }
}

// What the scan for marks found.
fn in_marked(kind: Kind, found: marks::Found) -> Ahead
    ensures { result ≡ marked_ahead kind found }
{
    match found {
        marks::Found::At(place) => Ahead::At(place),
        marks::Found::Open(marks) => Ahead::Open(State::Marked(kind, marks)),
    }
}

// What the scan for the first byte of a kind found.
fn in_first(state: State, found: first::Found) -> Ahead
    ensures { result ≡ first_ahead state found }
{
    match found {
        first::Found::At(place) => Ahead::At(place),
        first::Found::End => Ahead::Open(state),
    }
}
