// The references of a case, and what the crate gives in the place of our refusal: see docs/DIFFERENCES.md.
ghost use Rattle.std.specs.Prelude.{◌≤◌};

use escape::answer::{Values, Written};
use escape::reference::{Reference, read_reference};
use escape::scalar::encode;
use ground::{byte_at, part};
use lines::line::{bytes, digit_of, find, put, put_number, say, say_number, say_numbers, word};
use lines::words::{say_bytes, say_spelt};
use std::io;
use std::io::Write;

// Runs the case whose tag stands after the space at `from`: a text, or one reference. No text has more bytes than its content.
pub fn case<W: Write>(out: &mut W, text: &[u8], from: usize, single: bool) -> io::Result<()> {
    let mut space = [0u8; 4096];
    let n = bytes(text, word(text, from), &mut space);
    run(out, &space[..n], single)
}

// Our answer, and above it the crate's where it gives something else than our refusal.
fn run<W: Write>(out: &mut W, content: &[u8], single: bool) -> io::Result<()> {
    let mut galley = [0u8; 4096];
    let written = written(content, &mut galley, single);
    let ours = written.values();
    let numbers = [ours.number, ours.place];
    if ours.number == 0 {
        say(out, b"  text ")?;
        say_bytes(out, part(&galley, 0, ours.count))?;
        put(out, b'\n')
    } else {
        say_crate(out, content, ours, single)?;
        say_numbers(out, b"  refused # #\n", &numbers)
    }
}

fn written(content: &[u8], galley: &mut [u8], single: bool) -> Written {
    if single {
        return escape::resolve(content, galley, 0);
    }
    escape::unescape(content, galley, 0)
}

// What the crate makes of a reference is its character's value, or an error's number so many times, which is more than any value. Of the errors it tells the place
// of UNKNOWN alone.
const ERROR: usize = 0x200000;

const NO_NUMBER: usize = 25 * ERROR;

const UNKNOWN: usize = 25 * ERROR + 1;

const NO_CHARACTER: usize = 26 * ERROR;

// That of a single reference, or of the one that ends a text, and the place of its `&`; 0 and the text's length where none ends it.
#[derive(Clone, Copy)]
struct Told {
    code: usize,
    place: usize,
}

// What the crate gives, where that is something else than our refusal.
fn say_crate<W: Write>(out: &mut W, content: &[u8], ours: Values, single: bool) -> io::Result<()> {
    let told = told_by_crate(out, content, single)?;
    let code = told.code;
    let number = code / ERROR;
    if (told.place == ours.place) & (number == ours.number) {
        return Ok(());
    }
    if number == 0 {
        return say_given(out, content, code);
    }
    say_number(out, b"  crate refused ", number)?;
    if code == UNKNOWN {
        put_number(out, b' ', told.place)?;
    }
    put(out, b'\n')
}

fn told_by_crate<W: Write>(out: &mut W, content: &[u8], single: bool) -> io::Result<Told> {
    if single {
        return Ok(Told {
            code: reference_of_crate(content),
            place: 0,
        });
    }
    text_of_crate(out, content, false)
}

// The character of a single reference, or the whole text.
fn say_given<W: Write>(out: &mut W, content: &[u8], code: usize) -> io::Result<()> {
    say(out, b"  crate text |")?;
    if code == 0 {
        text_of_crate(out, content, true)?;
    } else {
        say_character(out, code)?;
    }
    say(out, b"|\n")
}

fn say_character<W: Write>(out: &mut W, value: usize) -> io::Result<()> {
    if value < ERROR {
        let mut four = [0u8; 4];
        let n = encode(value as u32, &mut four);
        say_spelt(out, part(&four, 0, n))?;
    }
    Ok(())
}

// A text, up to the first error from the left. A reference ends at the next `;`, with no `&` before it. Writes what comes of it on the way, where `says` is set.
fn text_of_crate<W: Write>(out: &mut W, content: &[u8], says: bool) -> io::Result<Told> {
    let mut i = 0;
    while i < content.len() {
        let at = find(content, i, b'&');
        if says {
            say_spelt(out, part(content, i, at))?;
        }
        if content.len() <= at {
            break;
        }
        let from = at + 1;
        let end = find(content, from, b';');
        if (content.len() <= end) | (find(content, from, b'&') < end) {
            return Ok(Told {
                code: UNKNOWN,
                place: at,
            });
        }
        let code = reference_of_crate(part(content, from, end));
        if ERROR <= code {
            return Ok(Told { code, place: at });
        }
        if says {
            say_character(out, code)?;
        }
        i = end + 1;
    }
    Ok(Told {
        code: 0,
        place: content.len(),
    })
}

// The content of a reference.
fn reference_of_crate(content: &[u8]) -> usize {
    if byte_at(content, 0) == b'#' {
        if byte_at(content, 1) == b'x' {
            return number_of_crate(content, 2, 16);
        }
        return number_of_crate(content, 1, 10);
    }
    match read_reference(content) {
        Reference::Character(value) => value as usize,
        Reference::NotOfForm => UNKNOWN,
        Reference::NoCharacter => UNKNOWN,
    }
}

// A number, read from the left up to the first fault: a byte that is no digit, or a value past 32 bits. Each scalar value but 0 is a character's.
fn number_of_crate(content: &[u8], from: usize, base: usize) -> usize
    requires { base ≤ 16 }
{
    if content.len() <= from {
        return NO_NUMBER;
    }
    let mut value = 0;
    let mut i = from;
    while i < content.len() {
        let digit = digit_of(content[i]);
        if base <= digit {
            return NO_NUMBER;
        }
        value = value * base + digit;
        if 0xFFFFFFFF < value {
            return NO_CHARACTER;
        }
        i += 1;
    }
    if (value == 0) | (0x10FFFF < value) | ((0xD800 <= value) & (value <= 0xDFFF)) {
        return NO_CHARACTER;
    }
    value
}
