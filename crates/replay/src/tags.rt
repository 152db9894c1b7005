// The attributes of a case, and what the crate gives in the place of our refusal: see docs/DIFFERENCES.md.
use crate::says::say_item;
use attributes::attribute;
use attributes::find::find;
use attributes::item::{Extent, Values};
use ground::byte_at;
use lines::line::{bytes, word};
use std::io;
use std::io::Write;
use white::trim_start;

// Runs the case whose tag stands after the space at `from`. The crate checks for duplicates, but for the tag that says otherwise.
pub fn case<W: Write>(out: &mut W, text: &[u8], from: usize) -> io::Result<()> {
    let end = word(text, from);
    let checks = !ground::same(ground::part(text, from, end), b" attribute-duplicate");
    let mut space = [0u8; 4096];
    let n = bytes(text, end, &mut space);
    run(out, &space[..n], checks)
}

// Calls from the name on, up to the first that gives no attribute: there are fewer attributes than bytes.
fn run<W: Write>(out: &mut W, content: &[u8], checks: bool) -> io::Result<()> {
    let name = white::name_len(content, 0, content.len());
    let mut at = name;
    let mut left = content.len() + 1;
    while 0 < left {
        left -= 1;
        let item = attribute(content, name, at);
        let values = item.values();
        say_both(out, content, name, at, checks, values)?;
        if values.found == 0 {
            break;
        }
        at = values.next;
    }
    Ok(())
}

// Our answer, and above it the crate's where it gives something else than our refusal.
fn say_both<W: Write>(
    out: &mut W,
    content: &[u8],
    name: usize,
    at: usize,
    checks: bool,
    ours: Values,
) -> io::Result<()> {
    if ours.number != 0 {
        let theirs = item_of_crate(content, name, at, checks);
        if !alike(ours, theirs) {
            say_item(out, b"  crate ", theirs, content)?;
        }
    }
    say_item(out, b"  ", ours, content)
}

fn alike(ours: Values, theirs: Values) -> bool {
    (ours.found == theirs.found)
        & (ours.number == theirs.number)
        & (ours.place == theirs.place)
        & (ours.quote == theirs.quote)
        & (ours.first == theirs.first)
}

// What the crate gives where our call at `at` refuses: it asks for no white space, and looks for the `=` before it looks for the name among those before.
fn item_of_crate(content: &[u8], name: usize, at: usize, checks: bool) -> Values {
    let from = trim_start(content, at, content.len());
    let to = name_end(content, from);
    let sign = trim_start(content, to, content.len());
    if byte_at(content, sign) != b'=' {
        return refusal(21, sign, 0, 0);
    }
    let used = find(
        ground::part(content, 0, at),
        name,
        ground::part(content, from, to),
    );
    let before = used.values();
    if checks & (before.found == 1) {
        let own = before.name;
        return refusal(24, from, 0, own.from);
    }
    value_of_crate(content, Extent { from, to }, sign)
}

// Where a name of the crate ends: at the first `=` or white space behind its first byte, which may be any.
fn name_end(content: &[u8], from: usize) -> usize {
    let mut i = from;
    while i < content.len() {
        i += 1;
        let b = byte_at(content, i);
        if (b == b'=') | white::is_whitespace(b) {
            break;
        }
    }
    i
}

// The value behind the `=` at `sign`: it runs to the next quote of its kind, whatever is between.
fn value_of_crate(content: &[u8], name: Extent, sign: usize) -> Values {
    let end = content.len();
    if end <= sign {
        return refusal(22, end, 0, 0);
    }
    let open = trim_start(content, sign + 1, end);
    if end <= open {
        return refusal(22, end, 0, 0);
    }
    let quote = byte_at(content, open);
    if (quote != b'\'') & (quote != b'"') {
        return refusal(22, open, 0, 0);
    }
    let from = open + 1;
    let to = lines::line::find(content, from, quote);
    if end <= to {
        return refusal(22, end, quote as usize, 0);
    }
    Values {
        found: 1,
        name,
        value: Extent { from, to },
        next: 0,
        number: 0,
        place: 0,
        quote: 0,
        first: 0,
    }
}

fn refusal(number: usize, place: usize, quote: usize, first: usize) -> Values {
    let none = Extent { from: 0, to: 0 };
    Values {
        found: 0,
        name: none,
        value: none,
        next: 0,
        number,
        place,
        quote,
        first,
    }
}
