// Cuts the next piece off the document: what it is and where it ends, or why there is none. Neither settings nor open names count here.
ghost use Rattle.std.specs.Prelude.{◌≡◌, ◌<◌, length};
ghost use Rattle.reader.specs.Asked.{EndsWithin, tag_shape};
ghost use Rattle.reader.specs.Cut.{whole as whole_of, stop as stop_of, phase_at, cut_text, cut_ref, unclosed_tag, cut_tag, cut_marked, cut_bang, cut_question, cut_markup, cut_next};

use crate::piece::{Cut, Piece, Shape};
use emit::question::unclosed;
use ground::byte_at;
use parser::cdata::cdata_end;
use parser::comment::comment_end;
use parser::pi::pi_end;
use parser::reference::reference_end;
use parser::text::text_end;
use parser::{element, first, marks};
use state::answer::{Error, Refusal};
use state::place::{Position, Span};
use state::run::Phase;

// A piece from `from` to `to`.
fn whole(shape: Shape, from: usize, to: usize, next: Phase) -> Cut
    ensures { result ≡ whole_of shape from to next }
{
    let span = Span { from, to };
    Cut::Piece(Piece { shape, span, next })
}

// A refusal of the piece that starts at `from`, which leaves the reader at `left`.
fn stop(error: Error, from: usize, left: usize) -> Cut
    ensures { result ≡ stop_of error from left }
{
    let piece = Span { from, to: left };
    Cut::Stop(Refusal {
        error,
        place: Position(from),
        piece,
    })
}

// From where text may stand: markup at `<`, a reference at `&`, else text.
pub fn cut_next(document: &[u8], at: usize) -> Cut
    ensures { result ≡ cut_next document.now at }
{
    let b = byte_at(document, at);
    match b {
        b'<' => cut_markup(document, at),
        b'&' => cut_ref(document, at),
        _ => cut_text(document, at),
    }
}

// Text.
fn cut_text(document: &[u8], at: usize) -> Cut
    ensures { result ≡ cut_text document.now at }
{
    let first::Found::At(end) = text_end(document, at) else {
        return whole(Shape::LastText, at, document.len(), Phase::Done);
    };
    whole(Shape::Text, at, end, phase_at(document, end))
}

// The phase in which the byte at `end`, a `<` or a `&`, is read.
fn phase_at(document: &[u8], end: usize) -> Phase
    ensures { result ≡ phase_at document.now end }
{
    if byte_at(document, end) == b'<' {
        Phase::InsideMarkup
    } else {
        Phase::InsideRef
    }
}

// A reference, from its `&`.
fn cut_ref(document: &[u8], at: usize) -> Cut
    ensures { result ≡ cut_ref document.now at }
{
    let first::Found::At(end) = reference_end(document, at) else {
        return whole(Shape::Dangling, at, document.len(), Phase::Done);
    };
    if byte_at(document, end) == b';' {
        whole(Shape::GeneralRef, at, end + 1, Phase::InsideText)
    } else {
        whole(Shape::Dangling, at, end, phase_at(document, end))
    }
}

// Markup, from its `<`, by the byte after it.
fn cut_markup(document: &[u8], at: usize) -> Cut
    requires { at < length document.now }
    ensures { result ≡ cut_markup document.now at }
{
    let next = at + 1;
    if document.len() <= next {
        return stop(Error::UnclosedTag, at, at);
    }
    let b = document[next];
    match b {
        b'!' => cut_bang(document, at, byte_at(document, at + 2)),
        b'?' => cut_question(document, at),
        _ => cut_tag(document, at, tag_shape(b)),
    }
}

// Which tag it is, by the byte after `<`.
fn tag_shape(b: u8) -> Shape
    ensures { result ≡ tag_shape b }
{
    if b == b'/' { Shape::End } else { Shape::Start }
}

// A tag.
fn cut_tag(document: &[u8], at: usize, shape: Shape) -> Cut
    ensures { result ≡ cut_tag document.now at shape }
{
    let found = element::element_end(document, at);
    let element::Found::At(end) = found else {
        return stop(unclosed_tag(found), at, document.len());
    };
    whole(shape, at, end + 1, Phase::InsideText)
}

// Which refusal it is that a tag has no end, by the quote that is open.
fn unclosed_tag(found: element::Found) -> Error
    ensures { result ≡ unclosed_tag found }
{
    match found {
        element::Found::At(_) => Error::UnclosedTag,
        element::Found::Open(state) => match state {
            element::ElementState::Outside => Error::UnclosedTag,
            element::ElementState::SingleQ => Error::UnclosedSingleQuotedAttributeValue,
            element::ElementState::DoubleQ => Error::UnclosedDoubleQuotedAttributeValue,
        },
    }
}

// Markup that opens with `<!`, by the byte after that.
fn cut_bang(document: &[u8], at: usize, third: u8) -> Cut
    ensures { result ≡ cut_bang document.now at third }
{
    match third {
        b'[' => {
            let found = cdata_end(document, at);
            cut_marked(document, at, found, Shape::CData, Error::UnclosedCData)
        }
        b'-' => {
            let found = comment_end(document, at);
            cut_marked(document, at, found, Shape::Comment, Error::UnclosedComment)
        }
        b'D' => stop(Error::DocType, at, at),
        b'd' => stop(Error::DocType, at, at),
        _ => stop(Error::InvalidBangMarkup, at, at),
    }
}

// A comment or CDATA whose end was looked for.
fn cut_marked(document: &[u8], at: usize, found: marks::Found, shape: Shape, error: Error) -> Cut
    requires { EndsWithin document.now found }
    ensures { result ≡ cut_marked document.now at found shape error }
{
    let marks::Found::At(end) = found else {
        return stop(error, at, document.len());
    };
    whole(shape, at, end + 1, Phase::InsideText)
}

// A processing instruction or a declaration.
fn cut_question(document: &[u8], at: usize) -> Cut
    ensures { result ≡ cut_question document.now at }
{
    let marks::Found::At(end) = pi_end(document, at) else {
        return stop(unclosed(document, Position(at)), at, document.len());
    };
    whole(Shape::QuestionMark, at, end + 1, Phase::InsideText)
}
