// The scan for the end of a reference.
ghost use Rattle.std.specs.Prelude.{◌≡◌};
ghost use Rattle.parser.specs.First.{reference_found};

use crate::first::Found;

// The first of `;`, `&`, `<` after the byte at `from`, which is the reference's `&`.
pub fn reference_end(s: &[u8], from: usize) -> Found
    ensures { result ≡ reference_found s.now from }
{
    if s.len() <= from {
        return Found::End;
    }
    let mut i = from + 1;
    loop {
        if s.len() <= i {
            break Found::End;
        }
        let b = s[i];
        match b {
            b';' => break Found::At(i),
            b'&' => break Found::At(i),
            b'<' => break Found::At(i),
            _ => i += 1,
        }
    }
}
