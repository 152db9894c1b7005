// Lists the events of a document from standard input. Each answer has a line: the event's word and its piece, content and name length, or `refused` with
// the refusal's number and place. The document has at most 65,536 bytes, and 64 names may be open.
#![tactic(auto)]

mod line;

use lines::whole::{more, read_full, say_refused};
use reader::advance;
use state::answer::Kind;
use state::config::Config;
use state::run::{Made, Reader};
use std::io;
use std::io::Write;

fn main(rt: HostRuntime) -> io::Result<()> {
    let mut input = rt.reader();
    let mut out = io::writer(&rt);
    let mut buffer = [0u8; 65536];
    let n = read_full(&mut input, &mut buffer)?;
    if more(&mut input, n)? {
        return say_refused(&mut out, 16, 0);
    }
    list(&mut out, &buffer[..n])
}

fn list<W: Write>(out: &mut W, document: &[u8]) -> io::Result<()> {
    let settings = Config::default();
    let mut stack = [0usize; 128];
    match Reader::new(document, settings) {
        Made::Fresh(reader) => run(out, reader, document, &mut stack),
        Made::Refused(refusal) => line::say_values(out, refusal.values()),
    }
}

// Calls until end of file, which comes after as many calls as the document has bytes and two more, or before.
fn run<W: Write>(
    out: &mut W,
    fresh: Reader,
    document: &[u8],
    stack: &mut [usize],
) -> io::Result<()> {
    let eof = Kind::Eof;
    let last = eof.number();
    let mut reader = fresh;
    let mut left = document.len() + 2;
    while 0 < left {
        left -= 1;
        let step = advance(reader, document, stack);
        reader = step.reader;
        let answer = step.answer;
        let values = answer.values();
        line::say_values(out, values)?;
        if values.kind == last {
            break;
        }
    }
    Ok(())
}
