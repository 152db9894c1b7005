// What every crate stands on: a byte of a slice, a part of it that is asked for by its ends, and comparisons of bytes.
#![tactic(auto)]

ghost use Rattle.std.specs.Prelude.{◌≡◌, ◌+◌, ◌≤◌, length, get_or, drop};
ghost use Rattle.ground.specs.Alike.{Alike};
ghost use Rattle.ground.specs.Equal.{begins, same as same_of};
ghost use Rattle.ground.specs.Part.{PartOf};

// The byte at `i`; 0 at the end or past it.
pub fn byte_at(s: &[u8], i: usize) -> u8
    ensures { result ≡ get_or s.now i 0 }
{
    if s.len() <= i {
        return 0;
    }
    s[i]
}

// The bytes from `from` up to `to`; the empty part at the end where that span does not lie in the slice.
pub fn part(s: &[u8], from: usize, to: usize) -> &[u8]
    ensures { PartOf s.entry from to result }
{
    if to < from {
        return &s[s.len()..];
    }
    if s.len() < to {
        return &s[s.len()..];
    }
    &s[from..to]
}

// Whether the bytes from `from` on begin with `prefix`. At the end or past it there are none, and they begin with an empty prefix only.
pub fn starts_with(s: &[u8], from: usize, prefix: &[u8]) -> bool
    ensures { result ≡ begins (drop from s.now) prefix.now }
{
    let mut at = from;
    let mut i = 0;
    while i < prefix.len() {
        if s.len() <= at {
            return false;
        }
        if s[at] != prefix[i] {
            return false;
        }
        at += 1;
        i += 1;
    }
    true
}

// Whether two slices hold the same bytes.
pub fn same(a: &[u8], b: &[u8]) -> bool
    ensures { result ≡ same_of a.now b.now }
{
    if a.len() == b.len() {
        alike(a, b)
    } else {
        false
    }
}

// The same of slices as long as each other: by 8 bytes while they are the same, and then by one.
fn alike(a: &[u8], b: &[u8]) -> bool
    requires { length a.now ≡ length b.now }
    ensures { result ≡ begins a.now b.now }
{
    let n = b.len();
    let mut i = 0;
    while 8 <= n - i {
        if differ_8(a, b, i) {
            break;
        }
        i += 8;
    }
    while i < n {
        if a[i] != b[i] {
            return false;
        }
        i += 1;
    }
    true
}

// Whether one of the 8 bytes at `at` is another in b than in a.
fn differ_8(a: &[u8], b: &[u8], at: usize) -> bool
    requires { (at + 8 ≤ length a.now) × (at + 8 ≤ length b.now) }
    ensures { Alike a.now b.now at 8 result }
{
    let mut other = false;
    for k in 0..8 {
        other = other | (a[at + k] != b[at + k]);
    }
    other
}
