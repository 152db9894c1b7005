// The UTF-8 check (RFC 3629, section 4).
#![tactic(auto)]

ghost use Rattle.std.specs.Prelude.{◌≡◌, ◌∷◌, ◌+◌, ◌-◌, ◌≤◌, ◌<◌, min, length, get_or, drop, replicate};
ghost use Rattle.ground.specs.Choose.{pick};
ghost use Rattle.ground.specs.Part.{part as part_of};
ghost use Rattle.utf8.specs.Utf8.{utf8_tail, in_ranges, char_len, check as check_of};
ghost use Rattle.utf8.specs.Ascii.{Ascii, Sure, Reached};

use blocks::below;
use ground::byte_at;

// What the check says of bytes: all are well formed, or where the first ill-formed sequence begins. No well-formed character starts there, and all before it
// is well formed.
#[derive(Clone, Copy)]
pub enum Utf8 {
    WellFormed,
    IllFormed(usize),
}

// The length of a character whose bytes after the first start at `at`: one of lo..=hi, and then `more` of 80..=BF. 0 where they do
// not stand there.
fn tail_len(s: &[u8], at: usize, lo: u8, hi: u8, more: u8) -> usize
    ensures { result ≡ pick (in_ranges ((lo, hi) ∷ replicate more utf8_tail) (drop at s.now)) (more + 2) 0 }
{
    let mut i = at;
    let mut low = lo;
    let mut high = hi;
    let mut left = more;
    loop {
        if s.len() <= i {
            return 0;
        }
        let b = s[i];
        if b < low {
            return 0;
        }
        if high < b {
            return 0;
        }
        if left == 0 {
            return more as usize + 2;
        }
        left -= 1;
        low = 0x80;
        high = 0xBF;
        i += 1;
    }
}

// The length of the well-formed character that starts at `at`; 0 where none does.
fn char_len(s: &[u8], at: usize) -> usize
    ensures { result ≡ char_len (drop at s.now) }
{
    if s.len() <= at {
        return 0;
    }
    match s[at] {
        0x00..=0x7F => 1,
        0x80..=0xC1 => 0,
        0xC2..=0xDF => tail_len(s, at + 1, 0x80, 0xBF, 0),
        _ => long_len(s, at),
    }
}

// The same of one whose first byte is E0 or more: three bytes or four.
fn long_len(s: &[u8], at: usize) -> usize
    requires { (at < length s.now) × (0xE0 ≤ get_or s.now at 0) }
    ensures { result ≡ char_len (drop at s.now) }
{
    let next = at + 1;
    match s[at] {
        0xE0 => tail_len(s, next, 0xA0, 0xBF, 1),
        0xE1..=0xEC => tail_len(s, next, 0x80, 0xBF, 1),
        0xED => tail_len(s, next, 0x80, 0x9F, 1),
        0xEE..=0xEF => tail_len(s, next, 0x80, 0xBF, 1),
        0xF0 => tail_len(s, next, 0x90, 0xBF, 2),
        0xF1..=0xF3 => tail_len(s, next, 0x80, 0xBF, 2),
        0xF4 => tail_len(s, next, 0x80, 0x8F, 2),
        _ => 0,
    }
}

// The check of all the bytes: by characters for a stretch, and then past blocks of ASCII.
fn check_all(s: &[u8]) -> Utf8
    ensures { result ≡ check_of 0 s.now }
{
    let mut i = 0;
    loop {
        let end = stretch(s.len(), i);
        i = by_chars(s, i, end);
        if s.len() <= i {
            return Utf8::WellFormed;
        }
        if i < end {
            return Utf8::IllFormed(i);
        }
        i = past_ascii(s, i);
    }
}

// Where a stretch that begins at `from` ends, of n bytes.
fn stretch(n: usize, from: usize) -> usize
    requires { from ≤ n }
    ensures { result ≡ min n (from + 256) }
{
    if n - from < 256 { n } else { from + 256 }
}

// From `from` on by characters: up to `end`, or to where none starts.
fn by_chars(s: &[u8], from: usize, end: usize) -> usize
    requires { (end ≤ length s.now) × (from ≤ length s.now) × (check_of 0 s.now ≡ check_of from (drop from s.now)) }
    ensures { Reached s.now from end result }
{
    let mut i = from;
    while i < end {
        if s[i] < 0x80 {
            i += 1;
        } else {
            let n = char_len(s, i);
            if n == 0 {
                return i;
            }
            i += n;
        }
    }
    i
}

// Past blocks of ASCII, from `from` on. (A byte of 127 ends them: to ask for less than 127 takes fewer instructions than for less than 128.)
fn past_ascii(s: &[u8], from: usize) -> usize
    ensures { Ascii s.now from result }
{
    let mut i = from;
    while below(s, i, 16, 127) {
        i += 16;
    }
    i
}

// The check of the bytes from `from` up to `to`, with the position counted in the whole slice. A span that does not lie in the
// slice holds no bytes, and those are well formed.
pub fn check(s: &[u8], from: usize, to: usize) -> Utf8
    ensures { result ≡ check_of from (part_of s.now from to) }
{
    if plain(s, from, to) {
        Utf8::WellFormed
    } else {
        check_part(s, from, to)
    }
}

// Whether the span is ASCII as blocks show it. Those of a short one may end behind it. (Where the byte after the first is not ASCII, none is looked at.)
fn plain(s: &[u8], from: usize, to: usize) -> bool
    ensures { Sure result s.now from to }
{
    if to <= from {
        false
    } else if 0x80 <= byte_at(s, from + 1) {
        false
    } else if to - from <= 16 {
        below(s, from, 16, 127)
    } else if to - from <= 128 {
        below(s, from, 128, 128)
    } else {
        long_plain(s, from, to)
    }
}

// The same of a span at least as long as a block: the last block ends where it ends.
fn long_plain(s: &[u8], from: usize, to: usize) -> bool
    requires { 128 ≤ to - from }
    ensures { Sure result s.now from to }
{
    let mut i = from;
    while 128 <= to - i {
        if below(s, i, 128, 128) {
            i += 128;
        } else {
            return false;
        }
    }
    below(s, to - 128, 128, 128)
}

// The check of a span by its bytes.
fn check_part(s: &[u8], from: usize, to: usize) -> Utf8
    ensures { result ≡ check_of from (part_of s.now from to) }
{
    let u = check_all(ground::part(s, from, to));
    let Utf8::IllFormed(k) = u else {
        return Utf8::WellFormed;
    };
    Utf8::IllFormed(from + k)
}
