// How an answer and what a call leaves are written.
use attributes::item::Item;
use columns::Summary;
use lines::line::{put, put_number, say, say_number, say_numbers};
use lines::settings::say_settings;
use lines::words::{say_place, say_word};
use state::answer::Values;
use state::place::Span;
use state::run::Reader;
use std::io;
use std::io::Write;
use tally::Tallied;

// An event's word and five numbers, or a refusal's number, place and spans.
pub fn say_values<W: Write>(out: &mut W, values: Values) -> io::Result<()> {
    let piece = values.piece;
    let content = values.content;
    let numbers = [piece.from, piece.to, content.from, content.to, values.name];
    say(out, b"  ")?;
    if values.kind == 0 {
        say_refusal(out, values)
    } else {
        say_word(out, values.kind)?;
        say_numbers(out, b" # # # # #", &numbers)
    }
}

fn say_refusal<W: Write>(out: &mut W, values: Values) -> io::Result<()> {
    let number = values.number;
    let piece = values.piece;
    let expected = values.expected;
    let found = values.found;
    let numbers = [number, values.place, piece.from, piece.to];
    say_numbers(out, b"refused # # piece #..#", &numbers)?;
    match number {
        10 => {
            say_span(out, b" expected #..#", expected)?;
            say_span(out, b" found #..#", found)
        }
        11 => say_span(out, b" found #..#", found),
        _ => Ok(())
    }
}

fn say_span<W: Write>(out: &mut W, text: &[u8], span: Span) -> io::Result<()> {
    let numbers = [span.from, span.to];
    say_numbers(out, text, &numbers)
}

// Where a reader stands, with a `!` in front where its mark is on.
fn say_marked<W: Write>(out: &mut W, reader: Reader) -> io::Result<()> {
    if reader.mark {
        put(out, b'!')?;
    }
    say_place(out, reader)
}

// Where a run stands, and its open names, outermost first. Ends the line.
pub fn say_names<W: Write>(out: &mut W, reader: Reader, stack: &[usize]) -> io::Result<()> {
    say(out, b" | ")?;
    say_marked(out, reader)?;
    let names = reader.depth.0;
    let mut i = 0;
    while i < stack.len() {
        let to = i + 1;
        if names <= i / 2 {
            break;
        }
        if stack.len() <= to {
            break;
        }
        put_number(out, b' ', stack[i])?;
        put(out, b'.')?;
        put_number(out, b'.', stack[to])?;
        i += 2;
    }
    put(out, b'\n')
}

// The whole state, as a line of a case has it.
pub fn say_reader<W: Write>(out: &mut W, reader: Reader) -> io::Result<()> {
    let settings = reader.settings;
    say(out, b" | ")?;
    say_settings(out, settings)?;
    put(out, b' ')?;
    say_marked(out, reader)?;
    put_number(out, b' ', reader.length)?;
    say(out, b" |")
}

// The slots that are not 0, each with its number. Ends the line.
pub fn say_slots<W: Write>(out: &mut W, stack: &[usize]) -> io::Result<()> {
    let mut i = 0;
    while i < stack.len() {
        if stack[i] != 0 {
            put_number(out, b' ', i)?;
            put_number(out, b'=', stack[i])?;
        }
        i += 1;
    }
    put(out, b'\n')
}

// What a whole document opens and closes.
pub fn say_tally<W: Write>(out: &mut W, tallied: Tallied) -> io::Result<()> {
    match tallied {
        Tallied::Counted(counts) => {
            let depth = counts.depth;
            let numbers = [counts.openings, counts.closings, counts.mismatches, depth.0];
            say_numbers(out, b"  starts #, ends #, mismatches #, open #\n", &numbers)
        }
        Tallied::Refused(_) => Ok(()),
    }
}

// How many times a document has, the first index that is lower, and the refusal.
pub fn say_column<W: Write>(out: &mut W, summary: Summary) -> io::Result<()> {
    let order = summary.order;
    let outcome = summary.outcome;
    let numbers = [summary.count, order.number()];
    say_numbers(out, b"  times #, lower #", &numbers)?;
    if outcome.is_refused() {
        put(out, b' ')?;
        say_refusal(out, outcome.values())?;
    }
    say(out, b" |")
}

// An attribute's spans and where to go on, none, or a refusal's number and place, with the quote and the first place that it tells.
pub fn say_item<W: Write>(out: &mut W, front: &[u8], item: Item) -> io::Result<()> {
    let values = item.values();
    let number = values.number;
    let name = values.name;
    let value = values.value;
    let numbers = [name.from, name.to, value.from, value.to, values.next];
    say(out, front)?;
    if values.found == 1 {
        return say_numbers(out, b"name #..# value #..# next #", &numbers);
    }
    if number == 0 {
        return say(out, b"nothing");
    }
    let told = [number, values.place];
    say_numbers(out, b"refused # #", &told)?;
    if values.quote != 0 {
        say_number(out, b" quote ", values.quote)?;
    }
    if values.first != 0 {
        say_number(out, b" first ", values.first)?;
    }
    Ok(())
}
