// What the programs share that read all of standard input: one document, or cases.
ghost use Rattle.std.specs.Prelude.{◌≡◌, length, IfOk, OnErr};
ghost use Rattle.lines.specs.Counts.{IsPrefixLen};

use crate::line::say_numbers;
use std::io;
use std::io::{Read, Write};

// The most bytes of a document.
const LARGEST: usize = 65536;

// Cases have fewer bytes.
pub const ROOM: usize = 327680;

// Room for cases.
pub fn room() -> [u8; ROOM]
    ensures { 327680 ≡ length result }
{
    [0; ROOM]
}

// Reads until buf is full or the input ends, and answers how many bytes it put at the start of buf. An error is the input's own; what was read before it stands at the start of buf, which is as long as it was.
pub fn read_full<R: Read>(input: &mut R, buf: &mut [u8]) -> io::Result<usize>
    ensures ok { IfOk result (λ n. IsPrefixLen n buf.new) }
    ensures err { OnErr result (length buf.new ≡ length buf.old) }
{
    let mut done = 0;
    while done < buf.len() {
        let n = input.read(&mut buf[done..])?;
        if n == 0 {
            break;
        }
        done += n;
    }
    Ok(done)
}

// Whether n bytes are as many as are read, and the input has another.
pub fn more<R: Read>(input: &mut R, n: usize) -> io::Result<bool> {
    if n < LARGEST {
        return Ok(false);
    }
    let mut next = [0u8; 1];
    let read = read_full(input, &mut next)?;
    Ok(0 < read)
}

// Writes a refusal's number and place.
pub fn say_refused<W: Write>(out: &mut W, number: usize, place: usize) -> io::Result<()> {
    let numbers = [number, place];
    say_numbers(out, b"refused # #\n", &numbers)
}
