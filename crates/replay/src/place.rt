// The place that the crate tells, worked out from our answer as docs/DIFFERENCES.md states.
use ground::byte_at;
use state::answer::Values;

// Before any refusal it is 0, and positions of the crate count from after a byte order mark.
pub fn first_place(document: &[u8]) -> usize {
    if ground::starts_with(document, 0, b"\xEF\xBB\xBF") {
        3
    } else {
        0
    }
}

// After an answer, where `before` is what it told before it. An event changes nothing, and for the crate 18 is one.
pub fn next_place(values: Values, document: &[u8], before: usize) -> usize {
    let piece = values.piece;
    let number = values.number;
    if values.kind != 0 {
        return before;
    }
    match number {
        9 => {
            let content = piece.inner(4, 3);
            hyphen_place(document, content.from, values.place)
        }
        13 => encoding_place(byte_at(document, piece.from), piece.from, before),
        18 => before,
        _ => values.place,
    }
}

// `hyphen-place`: the content's start, and as many bytes as stand between the last lone hyphen before the pair, or the opener, and the pair.
fn hyphen_place(document: &[u8], from: usize, pair: usize) -> usize {
    let mut told = from;
    let mut i = from;
    while i < pair {
        let b = byte_at(document, i);
        i += 1;
        told = if b == b'-' { from } else { told + 1 };
    }
    told
}

// `encoding-place`: of ill-formed UTF-8 the piece's start in markup, and none in text and in references.
fn encoding_place(first: u8, start: usize, before: usize) -> usize {
    if first == b'<' { start } else { before }
}
