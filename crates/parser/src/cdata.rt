// The scan for the end of a CDATA section.
ghost use Rattle.std.specs.Prelude.{◌≡◌};
ghost use Rattle.parser.specs.Marks.{cdata_found};

use crate::marks::{Found, marks_end};

// The first `>` with `]]` just before, in a piece that starts at `from`.
pub fn cdata_end(s: &[u8], from: usize) -> Found
    ensures { result ≡ cdata_found s.now from }
{
    marks_end(s, from, 0, b']', 2)
}
