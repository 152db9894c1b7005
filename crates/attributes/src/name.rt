// The name of an attribute, behind white space (19, 20).
ghost use Rattle.std.specs.Prelude.{◌≡◌};
ghost use Rattle.attributes.specs.Grammar.{is_quote as is_quote_of, ends_name as ends_name_of, name_end as name_end_of, name_at as name_at_of};

use crate::item::{Extent, Fault, Refusal};
use white::{is_whitespace, trim_start};

#[derive(Clone, Copy)]
pub enum Named {
    Name(Extent),
    // Only white space is left.
    Nothing,
    Refused(Refusal),
}

// The name behind the white space at `at`.
pub fn name_at(content: &[u8], at: usize) -> Named
    ensures { result ≡ name_at_of content.now at }
{
    let from = trim_start(content, at, content.len());
    if content.len() <= from {
        return Named::Nothing;
    }
    if from == at {
        return Named::Refused(Refusal {
            fault: Fault::NoSpace,
            place: at,
        });
    }
    let to = name_end(content, from);
    if to == from {
        return Named::Refused(Refusal {
            fault: Fault::EmptyName,
            place: from,
        });
    }
    Named::Name(Extent { from, to })
}

// Where a name ends that begins at `from`: at the first white space, `=` or quote, or at the content's end.
fn name_end(content: &[u8], from: usize) -> usize
    ensures { result ≡ name_end_of content.now from }
{
    let mut i = from;
    while i < content.len() {
        if ends_name(content[i]) {
            break;
        }
        i += 1;
    }
    i
}

// Whether a byte can't stand in a name.
fn ends_name(b: u8) -> bool
    ensures { result ≡ ends_name_of b }
{
    is_whitespace(b) | (b == b'=') | is_quote(b)
}

pub fn is_quote(b: u8) -> bool
    ensures { result ≡ is_quote_of b }
{
    (b == b'"') | (b == b'\'')
}
