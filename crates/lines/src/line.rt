// The parts of a case's line, and how text and numbers are written.
ghost use Rattle.std.specs.Prelude.{◌<◌, ◌≤◌, min, length};
ghost use Rattle.lines.specs.Counts.{IsPrefixLen};

use std::io;
use std::io::Write;

// The first position from `from` on with the byte b, or the end.
pub fn find(s: &[u8], from: usize, b: u8) -> usize
    ensures { (min from (length s.now) ≤ result) × (result ≤ length s.now) }
{
    let mut i = from;
    loop {
        if s.len() <= i {
            break s.len();
        }
        if s[i] == b {
            break i;
        }
        i += 1;
    }
}

// The first space after the byte at `from`, or the end: where the word after it ends.
pub fn word(s: &[u8], from: usize) -> usize {
    if s.len() <= from {
        return s.len();
    }
    find(s, from + 1, b' ')
}

// A number, and where it ended.
#[derive(Clone, Copy)]
pub struct Read {
    pub value: usize,
    pub next: usize,
}

// The decimal number after the byte at `from`, and the position of the space or comma after it, or the end. Other bytes than digits are passed over, so `-`
// is 0. A number that is too large for 64 bits is the largest that is not.
pub fn number(s: &[u8], from: usize) -> Read {
    let mut value = 0;
    let mut i = from;
    while i < s.len() {
        i += 1;
        if s.len() <= i {
            break;
        }
        let b = s[i];
        if b == b' ' {
            break;
        }
        if b == b',' {
            break;
        }
        value = with_digit(value, b);
    }
    Read { value, next: i }
}

fn with_digit(value: usize, b: u8) -> usize {
    let digit = digit_of(b);
    if 9 < digit {
        return value;
    }
    if 1_844_674_407_370_955_160 < value {
        return 18_446_744_073_709_551_615;
    }
    let tens = value * 10;
    if 18_446_744_073_709_551_615 - tens < digit {
        return 18_446_744_073_709_551_615;
    }
    tens + digit
}

// Puts the numbers after the space at `from`, with commas between them, into `out`, as far as it goes.
pub fn values(s: &[u8], from: usize, out: &mut [usize]) {
    let mut i = from;
    let mut n = 0;
    while n < out.len() {
        let read = number(s, i);
        out[n] = read.value;
        n += 1;
        i = read.next;
        if ground::byte_at(s, i) != b',' {
            break;
        }
    }
}

// What a hexadecimal digit stands for, and 16 for any other byte: each small letter stands six places behind its large one.
pub fn digit_of(b: u8) -> usize
    ensures { result ≤ 16 }
{
    let at = find(b"0123456789ABCDEFabcdef", 0, b);
    if at < 16 { at } else { at - 6 }
}

// Puts the bytes that stand after the space at `from` into `out`, as far as it goes, and answers how many there are.
pub fn bytes(s: &[u8], from: usize, out: &mut [u8]) -> usize
    ensures { IsPrefixLen result out.new }
{
    let mut i = from;
    let mut n = 0;
    while n < out.len() {
        if s.len() <= i {
            break;
        }
        i += 1;
        if s.len() <= i {
            break;
        }
        let byte = byte(s, i);
        out[n] = byte.value;
        n += 1;
        i += byte.digits;
    }
    n
}

// A byte, and how many digits belong to it.
#[derive(Clone, Copy)]
struct Spelt {
    value: u8,
    digits: usize,
}

// The byte that stands at `at`, by itself or as `\` and two hexadecimal digits.
fn byte(s: &[u8], at: usize) -> Spelt
    requires { at < length s.now }
    ensures { result.digits ≤ 2 }
{
    let value = s[at];
    let first = digit_of(ground::byte_at(s, at + 1));
    let second = digit_of(ground::byte_at(s, at + 2));
    if value == b'\\' {
        if first < 16 {
            if second < 16 {
                return Spelt {
                    value: (first * 16 + second) as u8,
                    digits: 2,
                };
            }
        }
    }
    Spelt { value, digits: 0 }
}

// How many slots are lent: as many as asked for, if the stack has them.
pub fn lent(slots: usize, stack: &[usize]) -> usize
    ensures { IsPrefixLen result stack.now }
{
    if slots < stack.len() {
        slots
    } else {
        stack.len()
    }
}

// How many bytes are lent: as many as asked for, if the buffer has them.
pub fn lent_bytes(size: usize, buffer: &[u8]) -> usize
    ensures { IsPrefixLen result buffer.now }
{
    if size < buffer.len() {
        size
    } else {
        buffer.len()
    }
}

// Writes text.
pub fn say<W: Write>(out: &mut W, text: &[u8]) -> io::Result<()> {
    out.write_all(text)
}

// Writes text and a number.
pub fn say_number<W: Write>(out: &mut W, text: &[u8], n: usize) -> io::Result<()> {
    say(out, text)?;
    write!(out, "{n}")
}

// Writes a byte.
pub fn put<W: Write>(out: &mut W, b: u8) -> io::Result<()> {
    let one = [b];
    say(out, &one)
}

// Writes a byte and a number.
pub fn put_number<W: Write>(out: &mut W, b: u8, n: usize) -> io::Result<()> {
    put(out, b)?;
    write!(out, "{n}")
}

// Writes text with the numbers, one after the other, each in place of a `#`.
pub fn say_numbers<W: Write>(out: &mut W, text: &[u8], numbers: &[usize]) -> io::Result<()> {
    let mut from = 0;
    let mut i = 0;
    while i < numbers.len() {
        let at = find(text, from, b'#');
        say_number(out, ground::part(text, from, at), numbers[i])?;
        from = at + 1;
        i += 1;
    }
    say(out, ground::part(text, from, text.len()))
}
