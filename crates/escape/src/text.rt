// A whole text: how many bytes come of it, and the bytes.
ghost use Rattle.std.specs.Prelude.{◌≡◌, ◌++◌, ◌+◌, ◌-◌, ◌≤◌, ◌<◌, length, drop};
ghost use Rattle.ground.specs.Bytes.{amp};
ghost use Rattle.white.specs.White.{until};
ghost use Rattle.escape.specs.Text.{is_byte, whole_text, written_of, left_of};
ghost use Rattle.escape.specs.Inside.{found_at, IsWhole};

use crate::answer::{Fault, Written, refused};
use crate::reference::{Reference, read_reference};
use crate::scalar::{encode, width};
use blocks::neither;
use ground::part;

// What a reference in a text is: a character and where the text goes on behind it, or what refuses it.
#[derive(Clone, Copy)]
pub enum Found {
    Character { value: u32, next: usize },
    Refused(Fault),
}

// What writing a text comes to, in a buffer of so many bytes, from a place on. Nothing is written.
pub fn measure(content: &[u8], size: usize, at: usize) -> Written
    ensures { result ≡ written_of (whole_text content.now size at) }
{
    let mut i = 0;
    let mut p = at;
    loop {
        let end = plain_end(content, i);
        let room = room_at(size, p);
        if room < end - i {
            return refused(Fault::NoRoom, i + room);
        }
        p += end - i;
        if content.len() <= end {
            if size < p {
                return refused(Fault::NoRoom, end);
            }
            return Written::Bytes(p - at);
        }
        match found_at(content, end + 1) {
            Found::Refused(fault) => return refused(fault, end),
            Found::Character { value, next } => {
                let n = width(value);
                if room_at(size, p) < n {
                    return refused(Fault::NoRoom, end);
                }
                p += n;
                i = next;
            }
        }
    }
}

// Writes what comes of it, which fits.
pub fn write(content: &[u8], galley: &mut [u8], at: usize)
    requires { IsWhole (whole_text content.now (length galley.old) at) }
    ensures { galley.new ≡ left_of galley.old at (whole_text content.now (length galley.old) at) }
{
    let mut i = 0;
    let mut p = at;
    loop {
        let end = plain_end(content, i);
        copy(part(content, i, end), &mut galley[p..]);
        p += end - i;
        if content.len() <= end {
            return;
        }
        match found_at(content, end + 1) {
            // there is none: the text was measured
            Found::Refused(_) => return,
            Found::Character { value, next } => {
                p += encode(value, &mut galley[p..]);
                i = next;
            }
        }
    }
}

// How many bytes stand from a place on in a buffer of so many.
fn room_at(size: usize, p: usize) -> usize
    ensures { result ≡ size - p }
{
    if size < p {
        return 0;
    }
    size - p
}

// The reference whose content begins at `from`.
fn found_at(content: &[u8], from: usize) -> Found
    requires { from ≤ length content.now }
    ensures { result ≡ found_at content.now from }
{
    let end = first(content, from, b';');
    if content.len() <= end {
        return Found::Refused(Fault::NotOfForm);
    }
    match read_reference(part(content, from, end)) {
        Reference::NotOfForm => Found::Refused(Fault::NotOfForm),
        Reference::NoCharacter => Found::Refused(Fault::NoCharacter),
        Reference::Character(value) => Found::Character {
            value,
            next: end + 1,
        },
    }
}

// Where the plain bytes from `from` on end: at the next `&`, or at the end. Blocks without one are passed at once.
fn plain_end(content: &[u8], from: usize) -> usize
    ensures { result ≡ from + until (is_byte amp) (drop from content.now) }
{
    let mut i = from;
    while neither(content, i, 16, b'&', b'&') {
        i += 16;
    }
    first(content, i, b'&')
}

// The first place from `from` on where a byte stands; the end where none does.
fn first(content: &[u8], from: usize, byte: u8) -> usize
    ensures { result ≡ from + until (is_byte byte) (drop from content.now) }
{
    let mut i = from;
    while i < content.len() {
        if content[i] == byte {
            return i;
        }
        i += 1;
    }
    i
}

// Copies bytes to the start of what is lent.
fn copy(bytes: &[u8], out: &mut [u8])
    requires { length bytes.now ≤ length out.old }
    ensures { out.new ≡ bytes.now ++ drop (length bytes.now) out.old }
{
    let n = bytes.len();
    for k in 0..n {
        out[k] = bytes[k];
    }
}
