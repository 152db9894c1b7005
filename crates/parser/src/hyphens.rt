// The scan for two hyphens.
ghost use Rattle.std.specs.Prelude.{◌≡◌};
ghost use Rattle.parser.specs.Hyphens.{pair_found};

use crate::first::Found;

// The second hyphen of the first `--` from `from` on.
pub fn pair_end(s: &[u8], from: usize) -> Found
    ensures { result ≡ pair_found s.now from }
{
    let mut i = from;
    let mut before = false;
    loop {
        if s.len() <= i {
            break Found::End;
        }
        let b = s[i];
        let at = i;
        i += 1;
        if b == b'-' {
            if before {
                break Found::At(at);
            }
            before = true;
        } else {
            before = false;
        }
    }
}
