// A scan for a `>` with marks just before it that goes on where it stood.
ghost use Rattle.std.specs.Prelude.{◌≡◌};
ghost use Rattle.parser.specs.Machine.{scan_at};
ghost use Rattle.parser.specs.Marks.{marks_answer, marks_step, seeing};

use parser::marks::{Found, Marks, marks_end};

// The first `>` from `from` on with `need` bytes `mark` just before it, where so much of the opener is left and so many marks stand before `from`.
pub fn marked_end(piece: &[u8], from: usize, marks: Marks, mark: u8, need: usize) -> Found
    ensures { result ≡ marks_answer (scan_at (marks_step mark need) marks piece.now from) }
{
    let left = marks.left;
    let seen = marks.seen;
    if piece.len() <= from {
        return Found::Open(Marks { left, seen });
    }
    if left == 0 {
        seen_end(piece, from, seen, mark, need)
    } else {
        marks_end(piece, from, left, mark, need)
    }
}

// The same behind the opener.
pub fn seen_end(piece: &[u8], from: usize, before: usize, mark: u8, need: usize) -> Found
    ensures { result ≡ marks_answer (scan_at (marks_step mark need) (seeing before) piece.now from) }
{
    let mut i = from;
    let mut seen = before;
    loop {
        if piece.len() <= i {
            return Found::Open(Marks { left: 0, seen });
        }
        let b = piece[i];
        let at = i;
        i += 1;
        if b == b'>' {
            if need <= seen {
                return Found::At(at);
            }
            return marks_end(piece, i, 0, mark, need);
        } else if b == mark {
            if seen < need {
                seen += 1;
            }
        } else {
            return marks_end(piece, i, 0, mark, need);
        }
    }
}
