// The cases of scans that are fed in pieces.
use capi_pieces::sporebasket_feed;
use lines::line::{bytes, find, number, put, say, say_number, say_numbers, word};
use lines::words::{number_of, say_nth};
use std::io;
use std::io::Write;

// A scan that is fed: its state and three numbers stand after the space at `from`, and then its pieces, with `|` between them.
pub fn feed_case<W: Write>(out: &mut W, text: &[u8], from: usize) -> io::Result<()> {
    let end = word(text, from);
    let state = number_of(
        ground::part(text, from, end),
        b" closed; piece; opened; bang; tag; single; double; pi; comment; cdata; reference; text",
    );
    let count = number(text, end);
    let left = number(text, count.next);
    let seen = number(text, left.next);
    let mut scan = [state, count.value, left.value, seen.value];
    feed_all(out, text, seen.next, &mut scan)
}

// Each piece in turn. The first stands after the space at `from`.
fn feed_all<W: Write>(out: &mut W, text: &[u8], from: usize, scan: &mut [usize]) -> io::Result<()> {
    let mut at = from;
    while at < text.len() {
        let end = find(text, at + 1, b'|');
        let mut space = [0u8; 4096];
        let n = bytes(ground::part(text, 0, end), at, &mut space);
        let refusal = sporebasket_feed(&space[..n], scan);
        say_fed(out, refusal, scan)?;
        at = end;
    }
    Ok(())
}

// What is told, and the slots of the scan.
fn say_fed<W: Write>(out: &mut W, refusal: usize, scan: &[usize]) -> io::Result<()> {
    if scan.len() < 4 {
        return Ok(());
    }
    if refusal != 0 {
        say_number(out, b"  refused ", refusal)?;
    } else if scan[0] == 0 {
        say_number(out, b"  at ", scan[1])?;
    } else {
        say(out, b"  open")?;
    }
    let numbers = [scan[1], scan[2], scan[3]];
    say(out, b" | ")?;
    say_nth(
        out,
        b"closed;piece;opened;bang;tag;single;double;pi;comment;cdata;reference;text;?",
        scan[0],
    )?;
    say_numbers(out, b" # # #", &numbers)?;
    put(out, b'\n')
}
