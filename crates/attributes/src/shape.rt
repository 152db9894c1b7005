// An attribute by the grammar alone (XML 1.0, production 41): whatever names came before it.
ghost use Rattle.std.specs.Prelude.{◌≡◌};
ghost use Rattle.attributes.specs.Grammar.{shape_at as shape_at_of, named as named_of};

use crate::equals::{Equals, equals_at};
use crate::item::{Attribute, Extent, Item};
use crate::name::{Named, name_at};
use crate::value::{Valued, value_at};

// The attribute behind the white space at `at`.
pub fn shape_at(content: &[u8], at: usize) -> Item
    ensures { result ≡ shape_at_of content.now at }
{
    match name_at(content, at) {
        Named::Nothing => Item::Nothing,
        Named::Refused(refusal) => Item::Refused(refusal),
        Named::Name(name) => named(content, name),
    }
}

// The attribute with this name: equals sign and value follow.
pub fn named(content: &[u8], name: Extent) -> Item
    ensures { result ≡ named_of content.now name }
{
    match equals_at(content, name.to) {
        Equals::Refused(refusal) => Item::Refused(refusal),
        Equals::Before(at) => match value_at(content, at) {
            Valued::Refused(refusal) => Item::Refused(refusal),
            Valued::Value(value) => Item::Attribute(Attribute {
                name,
                value,
                next: value.to + 1,
            }),
        },
    }
}
