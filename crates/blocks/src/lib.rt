// Many bytes at once: what scans and checks pass in one step. Each loop has a fixed number of turns, no way out of the middle, and carries one value for each
// question: of such a loop a compiler makes vector code. None asks anything of its caller.
#![tactic(auto)]

ghost use Rattle.std.specs.Prelude.{◌≡◌, ◌+◌, ◌≤◌, leb, ltb, length};
ghost use Rattle.ground.specs.Choose.{pick};
ghost use Rattle.blocks.specs.Blocks.{one_of_three, either_of, block_len, NoneOf, YesWhere, Clears, Flag, LeastOf};

// How many bytes `clear` looks at.
pub const BLOCK: usize = 64;

// Whether n bytes stand at `at`.
fn fits(s: &[u8], at: usize, n: usize) -> bool
    ensures { result ≡ leb (at + n) (length s.now) }
{
    if s.len() < at {
        false
    } else {
        n <= s.len() - at
    }
}

// How many of the BLOCK bytes at `at` stand before the first that is a, b or c: all where none is. 0 where so many bytes do not stand there.
pub fn clear(s: &[u8], at: usize, a: u8, b: u8, c: u8) -> usize
    ensures { Clears (one_of_three a b c) s.now at block_len result }
{
    if fits(s, at, BLOCK) {
        least(s, at, a, b, c)
    } else {
        0
    }
}

// The same of bytes that stand there: the least of their places.
fn least(s: &[u8], at: usize, a: u8, b: u8, c: u8) -> usize
    requires { at + block_len ≤ length s.now }
    ensures { LeastOf (one_of_three a b c) s.now at block_len result }
{
    let mut least = 64;
    for k in 0..64 {
        least = lesser(place(s[at + k], a, b, c, k as u8), least);
    }
    least as usize
}

fn lesser(x: u8, y: u8) -> u8
    ensures { result ≡ pick (ltb x y) x y }
{
    if x < y { x } else { y }
}

// The place k of a byte that is a, b or c; past the block for any other.
fn place(v: u8, a: u8, b: u8, c: u8, k: u8) -> u8
    ensures { result ≡ pick (one_of_three a b c v) k block_len }
{
    if (v == a) | (v == b) | (v == c) {
        k
    } else {
        64
    }
}

// Whether n bytes stand at `at`, none of them a or b.
pub fn neither(s: &[u8], at: usize, n: usize, a: u8, b: u8) -> bool
    ensures { YesWhere result (NoneOf (either_of a b) s.now at n) }
{
    if fits(s, at, n) {
        !either(s, at, n, a, b)
    } else {
        false
    }
}

// Whether one of them is.
fn either(s: &[u8], at: usize, n: usize, a: u8, b: u8) -> bool
    requires { at + n ≤ length s.now }
    ensures { Flag (either_of a b) s.now at n result }
{
    let mut x = false;
    let mut y = false;
    for k in 0..n {
        x = x | (s[at + k] == a);
        y = y | (s[at + k] == b);
    }
    x | y
}

// Whether n bytes stand at `at`, all of them below `top`.
pub fn below(s: &[u8], at: usize, n: usize, top: u8) -> bool
    ensures { YesWhere result (NoneOf (leb top) s.now at n) }
{
    if fits(s, at, n) {
        !reaches(s, at, n, top)
    } else {
        false
    }
}

// Whether one of them is not.
fn reaches(s: &[u8], at: usize, n: usize, top: u8) -> bool
    requires { at + n ≤ length s.now }
    ensures { Flag (leb top) s.now at n result }
{
    let mut high = false;
    for k in 0..n {
        high = high | (top <= s[at + k]);
    }
    high
}
