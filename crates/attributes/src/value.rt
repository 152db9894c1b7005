// A value in quotes (XML 1.0, production 10; 22, 23).
ghost use Rattle.std.specs.Prelude.{◌≡◌};
ghost use Rattle.attributes.specs.Grammar.{value_end as value_end_of, quoted_from, value_at as value_at_of};

use crate::item::{Extent, Fault, Refusal};
use crate::name::is_quote;
use ground::byte_at;
use white::trim_start;

#[derive(Clone, Copy)]
pub enum Valued {
    Value(Extent),
    Refused(Refusal),
}

// The value behind an equals sign that ends at `at`.
pub fn value_at(content: &[u8], at: usize) -> Valued
    ensures { result ≡ value_at_of content.now at }
{
    let opening = trim_start(content, at, content.len());
    let quote = byte_at(content, opening);
    if is_quote(quote) {
        return quoted(content, opening + 1, quote);
    }
    Valued::Refused(Refusal {
        fault: Fault::NoOpeningQuote,
        place: opening,
    })
}

// The value that begins at `from`, behind this quote.
fn quoted(content: &[u8], from: usize, quote: u8) -> Valued
    ensures { result ≡ quoted_from content.now quote from }
{
    let to = value_end(content, from, quote);
    if content.len() <= to {
        return Valued::Refused(Refusal {
            fault: Fault::NoClosingQuote(quote),
            place: content.len(),
        });
    }
    if content[to] == b'<' {
        return Valued::Refused(Refusal {
            fault: Fault::LessThan,
            place: to,
        });
    }
    Valued::Value(Extent { from, to })
}

// Where a value stops that begins at `from`: at the first such quote or `<`, or at the content's end.
fn value_end(content: &[u8], from: usize, quote: u8) -> usize
    ensures { result ≡ value_end_of content.now quote from }
{
    let mut i = from;
    while i < content.len() {
        let b = content[i];
        if (b == quote) | (b == b'<') {
            break;
        }
        i += 1;
    }
    i
}
