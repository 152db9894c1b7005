// What a call answers, and the reader after it. The stack is only read here.
ghost use Rattle.std.specs.Prelude.{◌≡◌, true};
ghost use Rattle.reader.specs.Asked.{due_of};
ghost use Rattle.reader.specs.Sound.{is_in_place};
ghost use Rattle.reader.specs.Step.{begin as begin_of, skipped, emitted, checked as checked_of, taken, step_phase, step};

use crate::cut::cut_next;
use crate::names::latest;
use crate::piece::{Cut, Due, Piece, Shape};
use crate::sound::sound;
use emit::bang::{emit_cdata, emit_comment};
use emit::end::{close_expanded_empty, emit_end};
use emit::question::emit_question_mark;
use emit::reference::{emit_dangling, emit_ref};
use emit::start::emit_start;
use emit::text::{emit_last_text, emit_text};
use ground::starts_with;
use state::answer::Error;
use state::config::Config;
use state::limits::capacity;
use state::place::{Depth, Position, Span};
use state::run::{Phase, Reader, Step};
use utf8::{Utf8, check};
use white::trim_start;

// The answer and the reader after it; a bad state is refused first.
pub fn decide(reader: Reader, document: &[u8], stack: &[usize]) -> Step
    ensures { result ≡ step document.now stack.now reader }
{
    if sound(reader, document, stack) {
        let depth = reader.depth;
        let last = latest(stack, depth);
        by_phase(reader, document, last, capacity(stack.len()))
    } else {
        reader.bad()
    }
}

// By the phase. `last` is the latest open name, and `capacity` how many may be open.
fn by_phase(reader: Reader, document: &[u8], last: Span, capacity: Depth) -> Step
    requires { is_in_place document.now reader ≡ true }
    ensures { result ≡ step_phase document.now reader last capacity }
{
    match what_is_due(reader, document) {
        Due::Piece(from) => take(reader, document, last, capacity, cut_next(document, from)),
        Due::EmptyEnd => close_expanded_empty(reader, last),
        Due::Nothing => {
            let at = reader.position.0;
            reader.end(last, Span { from: at, to: at })
        }
    }
}

// What is due in the phase. Markup and references stand at their `<` and `&`, so that one call cuts off every piece.
fn what_is_due(reader: Reader, document: &[u8]) -> Due
    ensures { result ≡ due_of document.now reader }
{
    let phase = reader.phase;
    let settings = reader.settings;
    let at = reader.position.0;
    match phase {
        Phase::Init => Due::Piece(skip(document, settings, begin(document))),
        Phase::InsideText => Due::Piece(skip(document, settings, at)),
        Phase::InsideMarkup => Due::Piece(at),
        Phase::InsideRef => Due::Piece(at),
        Phase::InsideEmpty => Due::EmptyEnd,
        Phase::Done => Due::Nothing,
    }
}

// Where the document begins: after the byte order mark.
fn begin(document: &[u8]) -> usize
    ensures { result ≡ begin_of document.now }
{
    if starts_with(document, 0, b"\xEF\xBB\xBF") {
        3
    } else {
        0
    }
}

// Past the white space at `from` if that is trimmed.
fn skip(document: &[u8], settings: Config, from: usize) -> usize
    ensures { result ≡ skipped document.now settings from }
{
    if settings.trim_text_start {
        trim_start(document, from, document.len())
    } else {
        from
    }
}

// What was cut off: a piece, or a refusal that ends the run.
fn take(reader: Reader, document: &[u8], last: Span, capacity: Depth, cut: Cut) -> Step
    ensures { result ≡ taken document.now reader last capacity cut }
{
    match cut {
        Cut::Piece(piece) => checked(reader, document, last, capacity, piece),
        Cut::Stop(refusal) => {
            let error = refusal.error;
            let place = refusal.place;
            let piece = refusal.piece;
            reader.stop(error, place, piece)
        }
    }
}

// A piece, if it is well-formed UTF-8; else it is refused at its first ill-formed byte.
fn checked(reader: Reader, document: &[u8], last: Span, capacity: Depth, piece: Piece) -> Step
    ensures { result ≡ checked_of document.now reader last capacity piece }
{
    let span = piece.span;
    let utf8 = check(document, span.from, span.to);
    let Utf8::IllFormed(ill) = utf8 else {
        return emit(reader, document, last, capacity, piece);
    };
    reader.stop(Error::Encoding, Position(ill), span)
}

// What a piece becomes.
fn emit(reader: Reader, document: &[u8], last: Span, capacity: Depth, piece: Piece) -> Step
    ensures { result ≡ emitted document.now reader last capacity piece }
{
    let shape = piece.shape;
    let span = piece.span;
    let next = piece.next;
    match shape {
        Shape::Text => emit_text(reader, document, span, next),
        Shape::LastText => emit_last_text(reader, document, last, span),
        Shape::GeneralRef => emit_ref(reader, span),
        Shape::Dangling => emit_dangling(reader, span, next),
        Shape::Comment => emit_comment(reader, document, span),
        Shape::CData => emit_cdata(reader, document, span),
        Shape::QuestionMark => emit_question_mark(reader, document, span),
        Shape::End => emit_end(reader, document, last, span),
        Shape::Start => emit_start(reader, document, capacity, span),
    }
}
