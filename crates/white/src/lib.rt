// White space (XML 1.0, production 3), and the runs of bytes that it bounds.
#![tactic(auto)]

ghost use Rattle.std.specs.Prelude.{◌≡◌, ◌+◌, ◌-◌, ◌≤◌, leb, length, drop};
ghost use Rattle.ground.specs.Part.{part as part_of};
ghost use Rattle.white.specs.White.{is_white, name_len, leading, kept_of, kept};

// How many bytes of white space are passed at once.
const BLOCK: usize = 64;

// Whether a byte is white space: space, tab, LF or CR.
pub fn is_whitespace(b: u8) -> bool
    ensures { result ≡ is_white b }
{
    (b == b' ') | (b == b'\t') | (b == b'\n') | (b == b'\r')
}

// How many bytes of the span `from` .. `to` stand before its first white space. A span that does not lie in the slice has none.
pub fn name_len(s: &[u8], from: usize, to: usize) -> usize
    ensures { result ≡ name_len (part_of s.now from to) }
{
    let content = ground::part(s, from, to);
    let mut i = 0;
    while i < content.len() {
        if is_whitespace(content[i]) {
            break;
        }
        i += 1;
    }
    i
}

// Where the span `from` .. `to` begins once its leading white space is cut: at its first byte that is not white space, or at its end where there
// is none. A span that does not lie in the slice begins at `from`.
pub fn trim_start(s: &[u8], from: usize, to: usize) -> usize
    ensures { result ≡ from + leading (part_of s.now from to) }
{
    let content = ground::part(s, from, to);
    from + leading_len(content)
}

// How many bytes of white space stand in front.
fn leading_len(s: &[u8]) -> usize
    ensures { result ≡ leading s.now }
{
    let mut i = 0;
    // where the first byte is not white space, no block is looked at
    if white_from(s, 0, 1) {
        while white_from(s, i, BLOCK) {
            i += BLOCK;
        }
        while white_from(s, i, 1) {
            i += 1;
        }
    }
    i
}

// Whether n bytes stand at `at`, all of them white space.
fn white_from(s: &[u8], at: usize, n: usize) -> bool
    requires { at ≤ length s.now }
    ensures { result ≡ leb n (leading (drop at s.now)) }
{
    if s.len() - at < n {
        return false;
    }
    let mut all = true;
    for k in 0..n {
        all = all & is_whitespace(s[at + k]);
    }
    all
}

// Where the span `from` .. `to` ends once its trailing white space is cut: after its last byte that is not white space, or at `from` where
// there is none. So too for a span that does not lie in the slice.
pub fn trim_end(s: &[u8], from: usize, to: usize) -> usize
    ensures { result ≡ from + kept (part_of s.now from to) }
{
    let content = ground::part(s, from, to);
    from + kept_len(content)
}

// How many bytes are left when trailing white space is cut: the search for the last byte that is not white space.
fn kept_len(s: &[u8]) -> usize
    ensures { result ≡ kept s.now }
{
    let mut end = s.len();
    // where the last byte is not white space, no block is looked at
    if white_before(s, end, 1) {
        while white_before(s, end, BLOCK) {
            end -= BLOCK;
        }
        while white_before(s, end, 1) {
            end -= 1;
        }
    }
    end
}

// Whether the first `end` bytes end with n bytes of white space: whether so many of them are cut.
fn white_before(s: &[u8], end: usize, n: usize) -> bool
    requires { end ≤ length s.now }
    ensures { result ≡ leb n (end - kept_of s.now end) }
{
    if end < n {
        return false;
    }
    white_from(s, end - n, n)
}
