// The cases of the functions below the reader, and of those for attributes and references: a line names one, which is called on its numbers and bytes.
use crate::says::say_item;
use lines::line::{bytes, lent_bytes, number, put, say, say_number, say_numbers, word};
use lines::words::{number_of, say_bytes, say_nth};
use std::io;
use std::io::Write;

// Writes the answer behind the line, if it names a function.
pub fn answer<W: Write>(out: &mut W, text: &[u8]) -> io::Result<()> {
    let end = word(text, 0);
    let name = ground::part(text, 0, end);
    let from = number(text, end);
    let second = word(text, end);
    let to = number(text, second);
    let third = word(text, second);
    let mut space = [0u8; 4096];
    let n = bytes(text, third, &mut space);
    let mut room = [0u8; 4096];
    let m = bytes(ground::part(text, 0, third), second, &mut room);
    call(
        out,
        function(name),
        &space[..n],
        from.value,
        to.value,
        &room[..m],
    )
}

// The number of a function, as `call` has them; that of none of them for any other name.
fn function(name: &[u8]) -> usize {
    number_of(
        name,
        b"part;byte_at;is_whitespace;name_len;trim_end;trim_start;utf8;starts_with;same;element;pi;comment;cdata;text;reference;pair;attribute;find;unescape;resolve",
    )
}

// Calls a function on bytes and numbers. Those that compare with other bytes have them where the second number would stand.
fn call<W: Write>(
    out: &mut W,
    function: usize,
    s: &[u8],
    from: usize,
    to: usize,
    other: &[u8],
) -> io::Result<()> {
    match function {
        0 => say_part(out, s, from, to),
        1 => say_value(out, ground::byte_at(s, from) as usize),
        2 => say_white(out, s, from),
        3 => say_value(out, white::name_len(s, from, to)),
        4 => say_value(out, white::trim_end(s, from, to)),
        5 => say_value(out, white::trim_start(s, from, to)),
        6 => say_utf8(out, utf8::check(s, from, to)),
        7 => say_truth(out, ground::starts_with(s, from, other)),
        8 => say_truth(out, ground::same(s, other)),
        9 => say_element(out, parser::element::element_end(s, from)),
        10 => say_marks(out, parser::pi::pi_end(s, from)),
        11 => say_marks(out, parser::comment::comment_end(s, from)),
        12 => say_marks(out, parser::cdata::cdata_end(s, from)),
        13 => say_first(out, parser::text::text_end(s, from)),
        14 => say_first(out, parser::reference::reference_end(s, from)),
        15 => say_first(out, parser::hyphens::pair_end(s, from)),
        16 => say_item(out, b" = ", attributes::attribute(s, from, to)),
        17 => say_item(out, b" = ", attributes::find::find(s, from, other)),
        18 => say_written(out, s, from, to, true),
        19 => say_written(out, s, from, to, false),
        _ => Ok(())
    }
}

// What comes of a text or of one reference in a buffer of so many bytes, each of which is `.` before.
fn say_written<W: Write>(
    out: &mut W,
    s: &[u8],
    size: usize,
    at: usize,
    whole: bool,
) -> io::Result<()> {
    let mut galley = [b'.'; 128];
    let n = lent_bytes(size, &galley);
    say_galley(out, s, &mut galley[..n], at, whole)
}

// How many bytes were written, or a refusal's number and place, and the whole buffer.
fn say_galley<W: Write>(
    out: &mut W,
    s: &[u8],
    galley: &mut [u8],
    at: usize,
    whole: bool,
) -> io::Result<()> {
    let written = written(s, galley, at, whole);
    let values = written.values();
    let number = values.number;
    let numbers = [number, values.place];
    if number == 0 {
        say_number(out, b" = ", values.count)?;
    } else {
        say_numbers(out, b" = refused # #", &numbers)?;
    }
    put(out, b' ')?;
    say_bytes(out, galley)
}

fn written(s: &[u8], galley: &mut [u8], at: usize, whole: bool) -> escape::answer::Written {
    if whole {
        return escape::unescape(s, galley, at);
    }
    escape::resolve(s, galley, at)
}

fn say_value<W: Write>(out: &mut W, n: usize) -> io::Result<()> {
    say_number(out, b" = ", n)
}

fn say_at<W: Write>(out: &mut W, at: usize) -> io::Result<()> {
    say_number(out, b" = at ", at)
}

fn say_part<W: Write>(out: &mut W, s: &[u8], from: usize, to: usize) -> io::Result<()> {
    say(out, b" = ")?;
    say(out, ground::part(s, from, to))
}

// Of the byte at `from`, if there is one.
fn say_white<W: Write>(out: &mut W, s: &[u8], from: usize) -> io::Result<()> {
    if from < s.len() {
        say_truth(out, white::is_whitespace(s[from]))?;
    }
    Ok(())
}

fn say_truth<W: Write>(out: &mut W, t: bool) -> io::Result<()> {
    say_nth(out, b" = false; = true", t as usize)
}

fn say_utf8<W: Write>(out: &mut W, u: utf8::Utf8) -> io::Result<()> {
    match u {
        utf8::Utf8::WellFormed => say(out, b" = well formed"),
        utf8::Utf8::IllFormed(at) => say_number(out, b" = ill formed at ", at),
    }
}

fn say_element<W: Write>(out: &mut W, f: parser::element::Found) -> io::Result<()> {
    match f {
        parser::element::Found::At(at) => say_at(out, at),
        parser::element::Found::Open(q) => say_open(out, q),
    }
}

fn say_open<W: Write>(out: &mut W, q: parser::element::ElementState) -> io::Result<()> {
    let n = match q {
        parser::element::ElementState::Outside => 0,
        parser::element::ElementState::SingleQ => 1,
        parser::element::ElementState::DoubleQ => 2,
    };
    say_nth(
        out,
        b" = open, outside; = open, within '; = open, within \"",
        n,
    )
}

fn say_marks<W: Write>(out: &mut W, f: parser::marks::Found) -> io::Result<()> {
    match f {
        parser::marks::Found::At(at) => say_at(out, at),
        parser::marks::Found::Open(m) => {
            let numbers = [m.left, m.seen];
            say_numbers(out, b" = open, left #, seen #", &numbers)
        }
    }
}

fn say_first<W: Write>(out: &mut W, f: parser::first::Found) -> io::Result<()> {
    match f {
        parser::first::Found::At(at) => say_at(out, at),
        parser::first::Found::End => say(out, b" = end"),
    }
}
