// The scan of text over one piece of many: by blocks, and what stands behind the last of them by one test.
ghost use Rattle.std.specs.Prelude.{◌≡◌, ◌≤◌};
ghost use Rattle.parser.specs.First.{text_found};

use blocks::{BLOCK, neither};
use ground::part;
use parser::first::Found;
use parser::text::text_end;

// The first `<` or `&` from `from` on.
pub fn text_on(piece: &[u8], from: usize) -> Found
    ensures { result ≡ text_found piece.now from }
{
    if piece.len() <= from {
        return Found::End;
    }
    let cut = piece.len() - behind(piece.len() - from);
    match text_end(part(piece, 0, cut), from) {
        Found::At(place) => Found::At(place),
        Found::End => last_end(piece, cut),
    }
}

// How many of so many bytes stand behind the blocks that `text_end` takes at once: one, and then two at a time.
fn behind(n: usize) -> usize
    ensures { result ≤ n }
{
    if n < BLOCK {
        n
    } else {
        (n - BLOCK) % (2 * BLOCK)
    }
}

// The same for the last bytes.
fn last_end(piece: &[u8], from: usize) -> Found
    ensures { result ≡ text_found piece.now from }
{
    if piece.len() <= from {
        return Found::End;
    }
    if neither(piece, from, piece.len() - from, b'<', b'&') {
        Found::End
    } else {
        text_end(piece, from)
    }
}
