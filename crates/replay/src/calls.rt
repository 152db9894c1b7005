// The calls of a case.
use crate::place::{first_place, next_place};
use crate::says::{say_crate, say_values};
use lines::line::{bytes, lent, number, word};
use lines::settings::settings;
use reader::advance;
use state::answer::Kind;
use state::run::{Made, Reader};
use std::io;
use std::io::Write;

// Runs the case whose settings stand at `from`, or after the space there.
pub fn case<W: Write>(out: &mut W, text: &[u8], from: usize) -> io::Result<()> {
    let end = word(text, from);
    let settings = settings(ground::part(text, from, end));
    let slots = number(text, end);
    let mut space = [0u8; 4096];
    let n = bytes(text, slots.next, &mut space);
    let document = &space[..n];
    let mut stack = [0usize; 8200];
    let lent = lent(slots.value, &stack);
    match Reader::new(document, settings) {
        Made::Fresh(reader) => run(out, reader, document, &mut stack[..lent]),
        Made::Refused(_) => Ok(()),
    }
}

// Calls until end of file, which comes after as many calls as the document has bytes and two more, or before. `place` is what the crate tells for its latest
// refusal.
fn run<W: Write>(
    out: &mut W,
    fresh: Reader,
    document: &[u8],
    stack: &mut [usize],
) -> io::Result<()> {
    let eof = Kind::Eof;
    let last = eof.number();
    let mut reader = fresh;
    let mut place = first_place(document);
    let mut left = document.len() + 2;
    while 0 < left {
        left -= 1;
        let step = advance(reader, document, stack);
        reader = step.reader;
        let answer = step.answer;
        let values = answer.values();
        place = next_place(values, document, place);
        say_crate(out, values, reader, document, place)?;
        say_values(out, values, reader, document)?;
        if values.kind == last {
            break;
        }
    }
    Ok(())
}
