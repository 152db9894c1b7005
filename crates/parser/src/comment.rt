// The scan for the end of a comment.
ghost use Rattle.std.specs.Prelude.{◌≡◌};
ghost use Rattle.parser.specs.Marks.{comment_found};

use crate::marks::{Found, marks_end};

// The first `>` at offset 6 or more with `--` just before, in a piece that starts at `from`: the hyphens of `<!--` close nothing.
pub fn comment_end(s: &[u8], from: usize) -> Found
    ensures { result ≡ comment_found s.now from }
{
    marks_end(s, from, 4, b'-', 2)
}
