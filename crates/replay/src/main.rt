// Replays what quick-xml 0.42.0 answered: reads cases from standard input, a case to a line, and writes each line with a line for every call up to end of
// file, or up to the end of a tag's attributes, or for the text that comes of references, below it. The file `stdout` beside this program is what the crate said (`tools/record` writes both files),
// and the check compares the two. A line is
//   SETTINGS SLOTS BYTES                          a document that both answer alike
//   difference TAG SETTINGS SLOTS BYTES           one that they do not: TAG is a row of docs/DIFFERENCES.md, or some with `+` between them
//   added SETTINGS SLOTS BYTES                    one that ends with names open, where these are checked: ours is 18 where the crate has Eof
//   attributes TAG BYTES                          the content of a tag: TAG is `-` where both answer alike, else a row of docs/DIFFERENCES.md
//   escape TAG BYTES                              a text, whose references are replaced
//   reference TAG BYTES                           the content of one reference
// SETTINGS, SLOTS and BYTES are written as for `cases`. Where a call differs, a line that begins with `crate` stands above our own and has what the crate
// says, worked out from our answer as that row states. A line that begins with `#` is passed over. The cases have fewer than 327,680 bytes.
#![tactic(auto)]

mod calls;
mod place;
mod references;
mod says;
mod tags;

use lines::words::number_of;
use lines::{line, whole};
use std::io;
use std::io::Write;

fn main(rt: HostRuntime) -> io::Result<()> {
    let mut input = rt.reader();
    let mut out = io::writer(&rt);
    let mut buffer = whole::room();
    let n = whole::read_full(&mut input, &mut buffer)?;
    if whole::ROOM <= n {
        return line::say(&mut out, b"too long\n");
    }
    run(&mut out, &buffer[..n])
}

// Each line in turn.
fn run<W: Write>(out: &mut W, s: &[u8]) -> io::Result<()> {
    let mut at = 0;
    while at < s.len() {
        let end = line::find(s, at, b'\n');
        answer(out, ground::part(s, at, end))?;
        at = end + 1;
    }
    Ok(())
}

fn answer<W: Write>(out: &mut W, text: &[u8]) -> io::Result<()> {
    if ground::byte_at(text, 0) == b'#' {
        return Ok(());
    }
    line::say(out, text)?;
    line::put(out, b'\n')?;
    let end = line::word(text, 0);
    let form = ground::part(text, 0, end);
    match number_of(form, b"difference;added;attributes;escape;reference") {
        0 => calls::case(out, text, line::word(text, end)),
        1 => calls::case(out, text, end),
        2 => tags::case(out, text, end),
        3 => references::case(out, text, end, false),
        4 => references::case(out, text, end, true),
        _ => calls::case(out, text, 0),
    }
}
