// An attribute whose name no other before it has (24).
ghost use Rattle.std.specs.Prelude.{◌≡◌, length};
ghost use Rattle.attributes.specs.Tag.{bytes};
ghost use Rattle.attributes.specs.Inside.{Marks, UseTold, ItemTold};

use crate::item::{Extent, Fault, Item, refused};
use crate::marks::mark_of;
use crate::name::{Named, name_at};
use crate::shape::{named, shape_at};
use ground::{part, same};

#[derive(Clone, Copy)]
pub enum Use {
    // The name was used here first.
    At(usize),
    New,
}

// The attribute at `at`, to which reading comes from the end of a name with `name` bytes. `seen` has the marks of the names before it.
pub fn item_at(content: &[u8], name: usize, at: usize, seen: &[u8]) -> Item
    requires { Marks (length seen.now) }
    ensures { ItemTold content.now name at seen.now result }
{
    match name_at(content, at) {
        Named::Nothing => Item::Nothing,
        Named::Refused(refusal) => Item::Refused(refusal),
        Named::Name(own) => {
            let mark = mark_of(content, own, seen.len());
            if seen[mark] == 0 {
                return named(content, own);
            }
            match use_of(content, name, at, own) {
                Use::At(first) => refused(Fault::NameUsed(first), own.from),
                Use::New => named(content, own),
            }
        }
    }
}

// Where a name was used first among the attributes from the end of the element's name up to `at`.
fn use_of(content: &[u8], name: usize, at: usize, own: Extent) -> Use
    ensures { UseTold content.now name at (bytes content.now own) result }
{
    let from = own.from;
    let to = own.to;
    let wanted = part(content, from, to);
    let mut i = name;
    while i < at {
        match shape_at(content, i) {
            Item::Nothing => return Use::New,
            Item::Refused(_) => return Use::New,
            Item::Attribute(attribute) => {
                let other = attribute.name;
                let first = other.from;
                let end = other.to;
                if same(part(content, first, end), wanted) {
                    return Use::At(first);
                }
                i = attribute.next;
            }
        }
    }
    Use::New
}
