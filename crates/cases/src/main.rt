// Runs cases from standard input, a case to a line, and writes each line with what is answered. A line is one of
//   NAME NUMBER NUMBER BYTES                                              a function below the reader, of attributes or of references, whose answer stands behind the line
//   run SETTINGS SLOTS BYTES                                              every call up to end of file, one more, and the counts
//   state SETTINGS PHASE POSITION DEPTH LENGTH SLOTS VALUES BYTES         one call, from the state given
//   content FROM TO BYTES                                                 the bytes of a span
//   column ROOM SLOTS BYTES                                               the times of a document, in ROOM slots that hold 9999 before
//   attributes BYTES                                                      the attributes of a tag's content, from the name on
//   feed STATE COUNT LEFT SEEN BYTES                                      a scan, fed the bytes between one `|` and the next
//   row DEPTH POSITION NAMES SLOTS VALUES                                 the open name at a depth, in 4 slots that hold 9999 before
//   rows ROOM POSITION NAMES SLOTS VALUES                                 the open names, in ROOM slots that hold 9999 before
//   outermost POSITION NAMES SLOTS VALUES                                 the eight outermost open names, by value
//   plain SETTINGS SLOTS BYTES                                            as `run`, by the plain engine, without the counts
//   plain-state SETTINGS PHASE POSITION DEPTH LENGTH SLOTS VALUES BYTES   as `state`, by the plain engine
// The answers to the last eleven stand below the line. NAME is one that `leaves.rt` has. A function that compares has its other bytes in place of the
// second number. SETTINGS are letters of `settings.rt` or `-`. PHASE has a `!` in front where the mark is on, in the answers too. SLOTS is how many slots
// the lent stack has, at most as many as `calls.rt` has (for `column`, `row` and `rows` 16, for `outermost` 20). VALUES, with commas or `-`, are what its first ones hold. ROOM is at most 16. In BYTES `\` and two hexadecimal digits
// stand for a byte. STATE is a word that `feeds.rt` has. Any other line is written as it is. The cases together have fewer than 327,680 bytes.
#![tactic(auto)]

mod calls;
mod feeds;
mod leaves;
mod open;
mod says;

use lines::{line, whole};
use std::io;
use std::io::Write;

fn main(rt: HostRuntime) -> io::Result<()> {
    let mut input = rt.reader();
    let mut out = io::writer(&rt);
    let mut buffer = whole::room();
    let n = whole::read_full(&mut input, &mut buffer)?;
    if whole::ROOM <= n {
        return line::say(&mut out, b"too long\n");
    }
    run(&mut out, &buffer[..n])
}

// Each line in turn.
fn run<W: Write>(out: &mut W, s: &[u8]) -> io::Result<()> {
    let mut at = 0;
    while at < s.len() {
        let end = line::find(s, at, b'\n');
        answer(out, ground::part(s, at, end))?;
        at = end + 1;
    }
    Ok(())
}

// Writes a line, with its answer behind it or its answers below it. One of more than 4,096 bytes gets none.
fn answer<W: Write>(out: &mut W, text: &[u8]) -> io::Result<()> {
    line::say(out, text)?;
    if 4096 < text.len() {
        line::say(out, b" = too long\n")
    } else {
        leaves::answer(out, text)?;
        line::put(out, b'\n')?;
        calls::answer(out, text)
    }
}
