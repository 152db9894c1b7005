// Attributes (document 02): what stands behind the name in the content of a Start or an Empty. A call reads one; its places count from the content's first byte.
#![tactic(auto)]

mod equals;
pub mod find;
pub mod item;
mod marks;
mod name;
mod shape;
mod used;
mod value;

ghost use Rattle.std.specs.Prelude.{◌≡◌, length};
ghost use Rattle.attributes.specs.Tag.{attribute_at};
ghost use Rattle.attributes.specs.Inside.{Marks};

use crate::item::{Fault, Item, refused};
use crate::marks::{FEW, FEW_BYTES, MANY, SOME, SOME_BYTES, mark_of};
use crate::used::item_at;
use white::name_len;

// The attribute at `at` in a content whose name has `name` bytes. `at` is the name's end, or where the attribute before it says to go on. Any
// other `name` or `at` is 17.
pub fn attribute(content: &[u8], name: usize, at: usize) -> Item
    ensures { result ≡ attribute_at content.now name at }
{
    if content.len() <= FEW_BYTES {
        let mut seen = [0u8; FEW];
        return attribute_by(content, name, at, &mut seen);
    }
    if content.len() <= SOME_BYTES {
        let mut seen = [0u8; SOME];
        return attribute_by(content, name, at, &mut seen);
    }
    let mut seen = [0u8; MANY];
    attribute_by(content, name, at, &mut seen)
}

// The same, with a lent table of marks.
fn attribute_by(content: &[u8], name: usize, at: usize, seen: &mut [u8]) -> Item
    requires { Marks (length seen.old) }
    ensures { result ≡ attribute_at content.now name at }
{
    if name_len(content, 0, content.len()) != name {
        return refused(Fault::BadState, 0);
    }
    let mut from = name;
    while from < at {
        match item_at(content, name, from, seen) {
            Item::Nothing => return refused(Fault::BadState, 0),
            Item::Refused(_) => return refused(Fault::BadState, 0),
            Item::Attribute(attribute) => {
                let own = attribute.name;
                let mark = mark_of(content, own, seen.len());
                seen[mark] = 1;
                from = attribute.next;
            }
        }
    }
    if from != at {
        return refused(Fault::BadState, 0);
    }
    item_at(content, name, at, seen)
}
