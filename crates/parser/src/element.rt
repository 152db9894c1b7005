// The scan for the end of a tag.
ghost use Rattle.std.specs.Prelude.{◌≡◌, ◌≤◌};
ghost use Rattle.parser.specs.Element.{element_found, element_step, quote_of, IsQuote};
ghost use Rattle.parser.specs.Passed.{Passes};

use blocks::clear;

// Where the scan stands: outside quotes, or within one of the two kinds.
#[derive(Clone, Copy)]
pub enum ElementState {
    Outside,
    SingleQ,
    DoubleQ,
}

// The closing byte's position, or the state in which the bytes ended.
#[derive(Clone, Copy)]
pub enum Found {
    At(usize),
    Open(ElementState),
}

// The first `>` outside quotes from `from` on.
pub fn element_end(s: &[u8], from: usize) -> Found
    ensures { result ≡ element_found s.now from }
{
    let mut i = from;
    'tag: loop {
        i += clear(s, i, b'>', b'"', b'\'');
        if s.len() <= i {
            break 'tag Found::Open(ElementState::Outside);
        }
        let b = s[i];
        match b {
            b'>' => break 'tag Found::At(i),
            b'\'' | b'"' => {
                i = near(s, i + 1, b);
                'quote: loop {
                    if s.len() <= i {
                        break 'tag Found::Open(quote_of(b));
                    }
                    let q = s[i];
                    i += 1;
                    if q == b {
                        break 'quote;
                    }
                    i += clear(s, i, b, b, b);
                }
            }
            _ => i += 1,
        }
    }
}

// The state within a quote that `b` opened.
fn quote_of(b: u8) -> ElementState
    ensures { result ≡ quote_of b }
{
    if b == b'\'' {
        ElementState::SingleQ
    } else {
        ElementState::DoubleQ
    }
}

// Up to the quote `b` that closes, past 16 bytes at most: most values are short.
fn near(s: &[u8], from: usize, b: u8) -> usize
    requires { IsQuote b }
    ensures { Passes element_step (quote_of b) s.now from result }
{
    let end = limit(s.len(), from);
    let mut i = from;
    while i < end {
        if s[i] == b {
            break;
        }
        i += 1;
    }
    i
}

// Where 16 bytes from `from` on end, or all n bytes do.
fn limit(n: usize, from: usize) -> usize
    ensures { result ≤ n }
{
    if n <= from {
        n
    } else if n - from < 16 {
        n
    } else {
        from + 16
    }
}
