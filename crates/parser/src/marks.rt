// The scan for a `>` with marks just before it, which processing instructions, comments and CDATA share.
ghost use Rattle.std.specs.Prelude.{◌≡◌};
ghost use Rattle.parser.specs.Machine.{scan_at};
ghost use Rattle.parser.specs.Marks.{marks_answer, marks_found, marks_step, seeing};
ghost use Rattle.parser.specs.Passed.{Skips};

use blocks::clear;

// Where the scan stands: how many bytes of the opener are yet to pass, and how many marks stand just before, counted up to those needed.
#[derive(Clone, Copy)]
pub struct Marks {
    pub left: usize,
    pub seen: usize,
}

// The closing byte's position, or the state in which the bytes ended.
#[derive(Clone, Copy)]
pub enum Found {
    At(usize),
    Open(Marks),
}

// The first `>` with `need` bytes `mark` just before it, in a piece that starts at `from` and whose first `opener` bytes count for nothing. A `>` is never
// counted as a mark.
pub fn marks_end(s: &[u8], from: usize, opener: usize, mark: u8, need: usize) -> Found
    ensures { result ≡ marks_found opener mark need s.now from }
{
    if s.len() <= from {
        return Found::Open(Marks {
            left: opener,
            seen: 0,
        });
    }
    let room = s.len() - from;
    if room < opener {
        return Found::Open(Marks {
            left: opener - room,
            seen: 0,
        });
    }
    marks_from(s, from + opener, mark, need)
}

// The same from `from` on, with no opener.
fn marks_from(s: &[u8], from: usize, mark: u8, need: usize) -> Found
    ensures { result ≡ marks_answer (scan_at (marks_step mark need) (seeing 0) s.now from) }
{
    let mut i = from;
    let mut seen = 0;
    loop {
        i += skip(s, i, mark, need, seen);
        if s.len() <= i {
            break Found::Open(Marks { left: 0, seen });
        }
        let b = s[i];
        let at = i;
        i += 1;
        if b == b'>' {
            if need <= seen {
                break Found::At(at);
            }
            seen = 0;
        } else if b == mark {
            if seen < need {
                seen += 1;
            }
        } else {
            seen = 0;
        }
    }
}

// How many bytes at `at` pass with `seen` marks just before: those up to the next mark where there are none. A `>` among them closes nothing.
fn skip(s: &[u8], at: usize, mark: u8, need: usize, seen: usize) -> usize
    ensures { Skips mark need seen s.now at result }
{
    if seen != 0 {
        0
    } else if need == 0 {
        0
    } else {
        clear(s, at, mark, mark, mark)
    }
}
