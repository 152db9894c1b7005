// The equals sign between name and value (XML 1.0, production 25; 21).
ghost use Rattle.std.specs.Prelude.{◌≡◌};
ghost use Rattle.attributes.specs.Grammar.{equals_at as equals_at_of};

use crate::item::{Fault, Refusal};
use ground::byte_at;
use white::trim_start;

#[derive(Clone, Copy)]
pub enum Equals {
    // What follows begins here.
    Before(usize),
    Refused(Refusal),
}

// The equals sign behind a name that ends at `at`.
pub fn equals_at(content: &[u8], at: usize) -> Equals
    ensures { result ≡ equals_at_of content.now at }
{
    let sign = trim_start(content, at, content.len());
    if byte_at(content, sign) == b'=' {
        return Equals::Before(sign + 1);
    }
    Equals::Refused(Refusal {
        fault: Fault::NoEquals,
        place: sign,
    })
}
