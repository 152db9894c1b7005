// Marks of names: of two names with different marks it is known that they are not the same, without a look at their bytes.
ghost use Rattle.std.specs.Prelude.{◌≡◌, ◌<◌};
ghost use Rattle.attributes.specs.Tag.{bytes};
ghost use Rattle.attributes.specs.Inside.{Marks, mark_of};

use crate::item::Extent;
use ground::part;

// How many marks a table has, by how many bytes the content has: the table is cleared at each call.
pub const FEW: usize = 512;

pub const FEW_BYTES: usize = 512;

pub const SOME: usize = 8192;

pub const SOME_BYTES: usize = 4096;

pub const MANY: usize = 65536;

// An odd number below 2^32. A mark is made of the upper bits, into which each product carries the bytes.
const FACTOR: usize = 0x93D7_65DD;

// The mark of a name, of so many.
pub fn mark_of(content: &[u8], own: Extent, marks: usize) -> usize
    requires { Marks marks }
    ensures { (result ≡ mark_of marks (bytes content.now own)) × (result < marks) }
{
    let from = own.from;
    let to = own.to;
    let name = part(content, from, to);
    let mut mark: usize = 0;
    let mut i = 0;
    while i < name.len() {
        mark = (mark + wide(name[i])) * FACTOR % 0x1_0000_0000;
        i += 1;
    }
    mark * marks / 0x1_0000_0000
}

fn wide(b: u8) -> usize
    ensures { (result ≡ b) × (result < 256) }
{
    b as usize
}
