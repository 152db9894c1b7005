// The line of a call: the answer, and of an event where it leaves the reader.
use lines::line::{put, put_number, say, say_numbers};
use lines::words::{say_bytes, say_place, say_word};
use reader::content;
use state::answer::{Kind, Values};
use state::place::Span;
use state::run::Reader;
use std::io;
use std::io::Write;

// Our answer.
pub fn say_values<W: Write>(
    out: &mut W,
    values: Values,
    reader: Reader,
    document: &[u8],
) -> io::Result<()> {
    say(out, b"  ")?;
    if values.kind == 0 {
        return say_refusal(out, values, values.place, reader, document);
    }
    let span = values.content;
    say_event(out, values, reader, content(document, span))
}

// The word, where the reader is left, the name's length and the content.
fn say_event<W: Write>(
    out: &mut W,
    values: Values,
    reader: Reader,
    bytes: &[u8],
) -> io::Result<()> {
    say_word(out, values.kind)?;
    put(out, b' ')?;
    say_place(out, reader)?;
    put_number(out, b' ', values.name)?;
    put(out, b' ')?;
    say_bytes(out, bytes)?;
    put(out, b'\n')
}

// The number and a place, where the reader is left, and the names of a closing tag that is refused.
fn say_refusal<W: Write>(
    out: &mut W,
    values: Values,
    place: usize,
    reader: Reader,
    document: &[u8],
) -> io::Result<()> {
    let number = values.number;
    let numbers = [number, place];
    say_numbers(out, b"refused # # ", &numbers)?;
    say_place(out, reader)?;
    let expected = values.expected;
    let found = values.found;
    match number {
        10 => {
            say_name(out, expected, document)?;
            say_name(out, found, document)?;
        }
        11 => say_name(out, found, document)?,
        _ => {}
    }
    put(out, b'\n')
}

fn say_name<W: Write>(out: &mut W, span: Span, document: &[u8]) -> io::Result<()> {
    put(out, b' ')?;
    say_bytes(out, content(document, span))
}

// What the crate answers, where it answers something else: see docs/DIFFERENCES.md. `place` is what it tells for a refusal.
pub fn say_crate<W: Write>(
    out: &mut W,
    values: Values,
    reader: Reader,
    document: &[u8],
    place: usize,
) -> io::Result<()> {
    if values.number == 18 {
        say(out, b"  crate eof ")?;
        say_place(out, reader)?;
        return say(out, b" 0 ||\n");
    }
    if values.kind == 0 {
        if values.place != place {
            say(out, b"  crate ")?;
            say_refusal(out, values, place, reader, document)?;
        }
        return Ok(());
    }
    let text = Kind::Text;
    if values.kind == text.number() {
        let piece = values.piece;
        trimmed_text(
            out,
            values,
            reader,
            document,
            ground::byte_at(document, piece.from),
        )?;
    }
    Ok(())
}

// `dangling-trim`: the text of a `&` without its `;` is trimmed as other text is.
fn trimmed_text<W: Write>(
    out: &mut W,
    values: Values,
    reader: Reader,
    document: &[u8],
    first: u8,
) -> io::Result<()> {
    let settings = reader.settings;
    if first != b'&' {
        return Ok(());
    }
    if !settings.trim_text_end {
        return Ok(());
    }
    let span = values.content;
    let end = white::trim_end(document, span.from, span.to);
    if end < span.to {
        let kept = Span {
            from: span.from,
            to: end,
        };
        say(out, b"  crate ")?;
        say_event(out, values, reader, content(document, kept))?;
    }
    Ok(())
}

// An attribute's spans and bytes, none, or a refusal's number and place, the quote of 22 and the first place of 24.
pub fn say_item<W: Write>(
    out: &mut W,
    front: &[u8],
    values: attributes::item::Values,
    content: &[u8],
) -> io::Result<()> {
    let number = values.number;
    let name = values.name;
    let value = values.value;
    let spans = [name.from, name.to, value.from, value.to];
    let told = [number, values.place, values.quote, values.first];
    say(out, front)?;
    if values.found == 1 {
        say_numbers(out, b"attribute # # # # ", &spans)?;
        say_bytes(out, ground::part(content, name.from, name.to))?;
        put(out, b' ')?;
        say_bytes(out, ground::part(content, value.from, value.to))?;
    } else if number == 0 {
        say(out, b"none")?;
    } else {
        say_numbers(out, b"refused # # # #", &told)?;
    }
    put(out, b'\n')
}
