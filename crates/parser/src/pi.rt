// The scan for the end of a processing instruction or a declaration.
ghost use Rattle.std.specs.Prelude.{◌≡◌};
ghost use Rattle.parser.specs.Marks.{pi_found};

use crate::marks::{Found, marks_end};

// The first `>` with a `?` just before, in a piece that starts at `from`.
pub fn pi_end(s: &[u8], from: usize) -> Found
    ensures { result ≡ pi_found s.now from }
{
    marks_end(s, from, 0, b'?', 1)
}
