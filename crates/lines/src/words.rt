// Words by their numbers, and bytes that may not be printable.
use crate::line::{find, put, put_number, say};
use state::run::{Phase, Reader};
use std::io;
use std::io::Write;

// Writes word number n of words with `;` between them, which are counted from 0: the last, if there are not so many.
pub fn say_nth<W: Write>(out: &mut W, words: &[u8], n: usize) -> io::Result<()> {
    let mut from = 0;
    let mut left = n;
    while 0 < left {
        left -= 1;
        let end = find(words, from, b';');
        if words.len() <= end {
            break;
        }
        from = end + 1;
    }
    say(out, ground::part(words, from, find(words, from, b';')))
}

// The number of a word among words with `;` between them; how many they are, if it is none of them.
pub fn number_of(word: &[u8], words: &[u8]) -> usize {
    let mut from = 0;
    let mut n = 0;
    while from < words.len() {
        let end = find(words, from, b';');
        if ground::same(word, ground::part(words, from, end)) {
            break;
        }
        from = end + 1;
        n += 1;
    }
    n
}

// The word of an event's kind.
pub fn say_word<W: Write>(out: &mut W, kind: usize) -> io::Result<()> {
    say_nth(
        out,
        b"eof;start;end;empty;text;ref;comment;cdata;decl;pi;eof",
        kind,
    )
}

// The word of a phase.
pub fn say_phase<W: Write>(out: &mut W, phase: Phase) -> io::Result<()> {
    let n = match phase {
        Phase::Init => 0,
        Phase::InsideText => 1,
        Phase::InsideMarkup => 2,
        Phase::InsideRef => 3,
        Phase::InsideEmpty => 4,
        Phase::Done => 5,
    };
    say_nth(out, b"init;text;markup;ref;empty;done", n)
}

// The phase, the position and how many names are open.
pub fn say_place<W: Write>(out: &mut W, reader: Reader) -> io::Result<()> {
    let phase = reader.phase;
    say_phase(out, phase)?;
    put_number(out, b' ', reader.position.0)?;
    put_number(out, b' ', reader.depth.0)
}

// Writes bytes between bars.
pub fn say_bytes<W: Write>(out: &mut W, bytes: &[u8]) -> io::Result<()> {
    put(out, b'|')?;
    say_spelt(out, bytes)?;
    put(out, b'|')
}

// Writes bytes: each that is not printable ASCII, and `\`, as `\` and two digits.
pub fn say_spelt<W: Write>(out: &mut W, bytes: &[u8]) -> io::Result<()> {
    let mut i = 0;
    while i < bytes.len() {
        say_byte(out, bytes[i])?;
        i += 1;
    }
    Ok(())
}

fn say_byte<W: Write>(out: &mut W, b: u8) -> io::Result<()> {
    match b {
        b'\\' => say_hex(out, b),
        b' '..=b'~' => put(out, b),
        _ => say_hex(out, b),
    }
}

fn say_hex<W: Write>(out: &mut W, b: u8) -> io::Result<()> {
    let digits: &[u8] = b"0123456789ABCDEF";
    put(out, b'\\')?;
    put(out, ground::byte_at(digits, (b / 16) as usize))?;
    put(out, ground::byte_at(digits, (b % 16) as usize))
}
