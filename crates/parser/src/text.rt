// The scan for the end of text.
ghost use Rattle.std.specs.Prelude.{◌≡◌};
ghost use Rattle.parser.specs.First.{first_step, one_of, text_ends, text_found};
ghost use Rattle.parser.specs.Passed.{Passes};

use crate::first::Found;
use blocks::{BLOCK, clear, neither};

// The first `<` or `&` from `from` on.
pub fn text_end(s: &[u8], from: usize) -> Found
    ensures { result ≡ text_found s.now from }
{
    let mut i = from;
    loop {
        i = ahead(s, i);
        if s.len() <= i {
            break Found::End;
        }
        let b = s[i];
        match b {
            b'<' => break Found::At(i),
            b'&' => break Found::At(i),
            _ => i += 1,
        }
    }
}

// Past bytes that are neither: up to the first of them where it is near, and past whole blocks where it is not.
fn ahead(s: &[u8], from: usize) -> usize
    ensures { Passes (first_step (one_of text_ends)) tt s.now from result }
{
    let k = clear(s, from, b'<', b'&', b'&');
    if k < BLOCK {
        from + k
    } else {
        past(s, from + k)
    }
}

// Past whole blocks.
fn past(s: &[u8], from: usize) -> usize
    ensures { Passes (first_step (one_of text_ends)) tt s.now from result }
{
    let mut i = from;
    while neither(s, i, 128, b'<', b'&') {
        i += 128;
    }
    i
}
