// A tag's scan that goes on where it stood.
ghost use Rattle.std.specs.Prelude.{◌≡◌};
ghost use Rattle.parser.specs.Machine.{scan_at};
ghost use Rattle.parser.specs.Element.{element_answer, element_step, quote_of, IsQuote};

use blocks::clear;
use parser::element::{ElementState, Found, element_end};

// The first `>` outside quotes from `from` on, where the bytes before it leave one there.
pub fn tag_end(piece: &[u8], from: usize, quotes: ElementState) -> Found
    ensures { result ≡ element_answer (scan_at element_step quotes piece.now from) }
{
    match quotes {
        ElementState::Outside => element_end(piece, from),
        ElementState::SingleQ => quoted_end(piece, from, quotes, b'\''),
        ElementState::DoubleQ => quoted_end(piece, from, quotes, b'"'),
    }
}

// The same within a quote that `b` opened.
fn quoted_end(piece: &[u8], from: usize, quotes: ElementState, b: u8) -> Found
    requires { IsQuote b × (quotes ≡ quote_of b) }
    ensures { result ≡ element_answer (scan_at element_step (quote_of b) piece.now from) }
{
    let mut i = from;
    loop {
        i += clear(piece, i, b, b, b);
        if piece.len() <= i {
            return Found::Open(quotes);
        }
        let q = piece[i];
        i += 1;
        if q == b {
            return element_end(piece, i);
        }
    }
}
