// The attribute of a name.
ghost use Rattle.std.specs.Prelude.{◌≡◌, length};
ghost use Rattle.attributes.specs.Tag.{find_of};
ghost use Rattle.attributes.specs.Inside.{Marks};

use crate::item::{Fault, Item, refused};
use crate::marks::{FEW, FEW_BYTES, MANY, SOME, SOME_BYTES, mark_of};
use crate::used::item_at;
use ground::{part, same};
use white::name_len;

// The first attribute with the name `wanted`; the first refusal where one is met before it; else none.
pub fn find(content: &[u8], name: usize, wanted: &[u8]) -> Item
    ensures { result ≡ find_of content.now name wanted.now }
{
    if content.len() <= FEW_BYTES {
        let mut seen = [0u8; FEW];
        return find_by(content, name, wanted, &mut seen);
    }
    if content.len() <= SOME_BYTES {
        let mut seen = [0u8; SOME];
        return find_by(content, name, wanted, &mut seen);
    }
    let mut seen = [0u8; MANY];
    find_by(content, name, wanted, &mut seen)
}

// The same, with a lent table of marks.
fn find_by(content: &[u8], name: usize, wanted: &[u8], seen: &mut [u8]) -> Item
    requires { Marks (length seen.old) }
    ensures { result ≡ find_of content.now name wanted.now }
{
    if name_len(content, 0, content.len()) != name {
        return refused(Fault::BadState, 0);
    }
    let mut from = name;
    loop {
        let item = item_at(content, name, from, seen);
        match item {
            Item::Nothing => return item,
            Item::Refused(_) => return item,
            Item::Attribute(attribute) => {
                let own = attribute.name;
                let first = own.from;
                let end = own.to;
                if same(part(content, first, end), wanted) {
                    return item;
                }
                let mark = mark_of(content, own, seen.len());
                seen[mark] = 1;
                from = attribute.next;
            }
        }
    }
}
