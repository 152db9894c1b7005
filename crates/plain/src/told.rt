// What a piece becomes, from what is known of it where it ends.
ghost use Rattle.std.specs.Prelude.{◌≡◌, ◌<◌};
ghost use Rattle.state.specs.Limits.{longest};
ghost use Rattle.emit.specs.End.{close_expanded_empty};
ghost use Rattle.plain.specs.Told.{tell as tell_of, stop as stop_of, behind as behind_of, closed_of, unclosed_of, no_markup, no_closer, whole_of, text_of, reference_of, comment_of, cdata_of, instruction_of, opening_of, closing_of};

use crate::known::{Known, Part};
use state::answer::{Error, Event, Kind};
use state::place::{Depth, Position, Span};
use state::run::{Phase, Reader, Step};

// An event. The reader goes on after its piece.
fn tell(reader: Reader, kind: Kind, piece: Span, content: Span, name: usize, next: Phase) -> Step
    ensures { result ≡ tell_of reader kind piece content name next }
{
    let event = Event {
        kind,
        piece,
        content,
        name,
    };
    reader.event(event, next)
}

// A refusal at the piece's start, which ends the run.
fn stop(reader: Reader, error: Error, piece: Span) -> Step
    ensures { result ≡ stop_of reader error piece }
{
    reader.stop(error, Position(piece.from), piece)
}

// The phase behind a piece that ends at this byte: before a `<` or a `&`, or with another byte.
fn behind(b: u8) -> Phase
    ensures { result ≡ behind_of b }
{
    match b {
        b'<' => Phase::InsideMarkup,
        b'&' => Phase::InsideRef,
        _ => Phase::InsideText,
    }
}

// The piece ends at the byte b. `last` is the latest open name, and `room` how many names may be open.
pub fn closed(reader: Reader, known: Known, b: u8, last: Span, room: Depth) -> Step
    requires { known.at < longest }
    ensures { result ≡ closed_of reader known last room b }
{
    let from = known.from;
    let to = if (b == b'<') | (b == b'&') {
        known.at
    } else {
        known.at + 1
    };
    let part = known.part;
    match part {
        Part::Bang => stop(reader, no_markup(b), Span { from, to: from }),
        _ => whole(reader, known, Span { from, to }, behind(b), last, room),
    }
}

// The document ends.
pub fn unclosed(reader: Reader, known: Known, last: Span, room: Depth) -> Step
    ensures { result ≡ unclosed_of reader known last room }
{
    let from = known.from;
    let piece = Span { from, to: known.at };
    let kept = Span { from, to: from };
    let part = known.part;
    match part {
        Part::Nothing => whole(reader, known, piece, Phase::Done, last, room),
        Part::Text => whole(reader, known, piece, Phase::Done, last, room),
        Part::Reference => whole(reader, known, piece, Phase::Done, last, room),
        Part::Opened => stop(reader, Error::UnclosedTag, kept),
        Part::Bang => stop(reader, Error::InvalidBangMarkup, kept),
        _ => stop(reader, no_closer(known), piece),
    }
}

// `<!` and neither `[` nor `-`.
fn no_markup(b: u8) -> Error
    ensures { result ≡ no_markup b }
{
    if (b == b'D') | (b == b'd') {
        Error::DocType
    } else {
        Error::InvalidBangMarkup
    }
}

// Which refusal it is that a piece has no closer.
fn no_closer(known: Known) -> Error
    ensures { result ≡ no_closer known }
{
    let part = known.part;
    let quote = known.quote;
    let xml = known.right & (5 <= known.size());
    match part {
        Part::Comment => Error::UnclosedComment,
        Part::CData => Error::UnclosedCData,
        Part::Instruction => {
            if xml {
                Error::UnclosedXmlDecl
            } else {
                Error::UnclosedPI
            }
        }
        _ => match quote {
            b'\'' => Error::UnclosedSingleQuotedAttributeValue,
            b'"' => Error::UnclosedDoubleQuotedAttributeValue,
            _ => Error::UnclosedTag,
        },
    }
}

// A piece that has its closer or needs none, and the phase that comes next. (`<>` comes to `opening` as `Opened`; `Bang` does not come here.)
fn whole(reader: Reader, known: Known, piece: Span, next: Phase, last: Span, room: Depth) -> Step
    ensures { result ≡ whole_of reader known piece next last room }
{
    let letters = known.letters;
    let part = known.part;
    if letters.owed != 0 {
        return reader.stop(Error::Encoding, Position(letters.at), piece);
    }
    match part {
        Part::Nothing => text(reader, known, piece, next, last),
        Part::Text => text(reader, known, piece, next, last),
        Part::Reference => reference(reader, piece, next),
        Part::Comment => comment(reader, known, piece),
        Part::CData => cdata(reader, known, piece),
        Part::Instruction => instruction(reader, known, piece),
        Part::Closing => closing(reader, known, piece, last),
        _ => opening(reader, known, piece, room),
    }
}

// Text; at the document's end, where nothing is left of it, end of file.
fn text(reader: Reader, known: Known, piece: Span, next: Phase, last: Span) -> Step
    ensures { result ≡ text_of reader known piece next last }
{
    let from = piece.from;
    let to = if reader.settings.trim_text_end {
        known.kept
    } else {
        piece.to
    };
    if let Phase::Done = next {
        if to <= from {
            return reader.end(last, piece);
        }
    }
    tell(reader, Kind::Text, piece, Span { from, to }, 0, next)
}

// A reference: with its `;`, behind which is text, or not.
fn reference(reader: Reader, piece: Span, next: Phase) -> Step
    ensures { result ≡ reference_of reader piece next }
{
    if let Phase::InsideText = next {
        return tell(reader, Kind::GeneralRef, piece, piece.inner(1, 1), 0, next);
    }
    if reader.settings.allow_dangling_amp {
        return tell(reader, Kind::Text, piece, piece, 0, next);
    }
    reader.refuse(Error::UnclosedReference, Position(piece.from), piece, next)
}

// A comment. Two hyphens in a row are refused up to the closer's first, which stands at the content's end. (`second` is never 0.)
fn comment(reader: Reader, known: Known, piece: Span) -> Step
    ensures { result ≡ comment_of reader known piece }
{
    let content = piece.inner(4, 3);
    let second = known.pair;
    let first = if 0 < second { second - 1 } else { 0 };
    if !known.right {
        return stop(reader, Error::UnclosedComment, piece);
    }
    if reader.settings.check_comments & (second <= content.to) {
        let error = Error::DoubleHyphenInComment;
        return reader.refuse(error, Position(first), piece, Phase::InsideText);
    }
    tell(reader, Kind::Comment, piece, content, 0, Phase::InsideText)
}

fn cdata(reader: Reader, known: Known, piece: Span) -> Step
    ensures { result ≡ cdata_of reader known piece }
{
    if !known.right {
        return stop(reader, Error::UnclosedCData, piece);
    }
    tell(
        reader,
        Kind::CData,
        piece,
        piece.inner(9, 3),
        0,
        Phase::InsideText,
    )
}

// From `<?` to `?>`: a declaration where the name is `xml`. (`<?xml?x?>` has the right opener, and another name.)
fn instruction(reader: Reader, known: Known, piece: Span) -> Step
    ensures { result ≡ instruction_of reader known piece }
{
    let content = piece.inner(2, 2);
    let name = known.name_len(content);
    if piece.size() < 4 {
        return stop(reader, Error::UnclosedPI, piece);
    }
    if known.right & (name == 3) {
        return tell(reader, Kind::Decl, piece, content, name, Phase::InsideText);
    }
    tell(reader, Kind::PI, piece, content, name, Phase::InsideText)
}

// An opening tag, or an empty element.
fn opening(reader: Reader, known: Known, piece: Span, room: Depth) -> Step
    ensures { result ≡ opening_of reader known piece room }
{
    let names = reader.depth.0;
    let slashed = known.last == b'/';
    let back = if slashed { 2 } else { 1 };
    let content = piece.inner(1, back);
    let name = known.name_len(content);
    if slashed & !reader.settings.expand_empty_elements {
        return tell(reader, Kind::Empty, piece, content, name, Phase::InsideText);
    }
    if room.0 <= names {
        let from = piece.from;
        return stop(reader, Error::NameStackFull, Span { from, to: from });
    }
    let next = if slashed {
        Phase::InsideEmpty
    } else {
        Phase::InsideText
    };
    let more = reader.with_depth(Depth(names + 1));
    tell(more, Kind::Start, piece, content, name, next)
}

// A closing tag. It takes the latest open name away, where there is one. (Neither `<` nor `/` is white space: what is kept of the piece is kept of the content.)
fn closing(reader: Reader, known: Known, piece: Span, last: Span) -> Step
    ensures { result ≡ closing_of reader known piece last }
{
    let settings = reader.settings;
    let depth = reader.depth;
    let content = piece.inner(2, 1);
    let from = content.from;
    let trims = settings.trim_markup_names_in_closing_tags & (known.kept != from);
    let to = if trims { known.kept } else { content.to };
    let found = Span { from, to };
    let place = Position(piece.from);
    if (depth.0 == 0) & !settings.allow_unmatched_ends {
        let error = Error::UnmatchedEndTag(found);
        return reader.refuse(error, place, piece, Phase::InsideText);
    }
    let fewer = reader.with_depth(depth.fewer());
    let size = found.size();
    let same = (size == last.size()) & (to <= known.differs);
    if (depth.0 != 0) & settings.check_end_names & !same {
        let error = Error::MismatchedEndTag {
            expected: last,
            found,
        };
        return fewer.refuse(error, place, piece, Phase::InsideText);
    }
    tell(fewer, Kind::End, piece, found, size, Phase::InsideText)
}

// The End of an empty element that was told as a Start, with the latest open name.
pub fn close_empty(reader: Reader, last: Span) -> Step
    ensures { result ≡ close_expanded_empty reader last }
{
    let at = reader.position.0;
    let depth = reader.depth;
    let fewer = reader.with_depth(depth.fewer());
    tell(
        fewer,
        Kind::End,
        Span { from: at, to: at },
        last,
        last.size(),
        Phase::InsideText,
    )
}
