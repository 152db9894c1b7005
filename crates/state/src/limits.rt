// The limits as the code has them; `specs/Limits` has them for the definitions. No other code says the numbers.
ghost use Rattle.std.specs.Prelude.{◌≡◌};
ghost use Rattle.state.specs.Limits.{capacity as capacity_of};
ghost use Rattle.state.specs.Place.{depth_of};

use crate::place::Depth;

// The longest document, in bytes.
pub const LONGEST: usize = 268435456;

// The most names open at once.
pub const MOST: usize = 65535;

// The slots of a lent stack that a name takes: its start and its end.
pub const SLOTS: usize = 2;

// How many names a stack of so many slots holds.
pub fn capacity(slots: usize) -> Depth
    ensures { result ≡ depth_of (capacity_of slots) }
{
    let names = slots / SLOTS;
    if names < MOST {
        Depth(names)
    } else {
        Depth(MOST)
    }
}
