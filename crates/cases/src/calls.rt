// The cases of the reader, of the column reader and of a tag's attributes: the calls that a line makes. Those of scans that are fed stand in `feeds.rt`,
// those of open rows in `open.rt`.
ghost use Rattle.std.specs.Prelude.{◌+◌, ◌*◌, ◌≡◌, length};
ghost use Rattle.state.specs.Limits.{most, slots};

use crate::feeds::feed_case;
use crate::open::{open_case, outermost_case};
use crate::says::{say_column, say_item, say_names, say_reader, say_slots, say_tally, say_values};
use columns::column;
use lines::line::{bytes, lent, number, put, say, values, word};
use lines::settings::settings;
use lines::words::number_of;
use reader::{advance, content};
use state::answer::Kind;
use state::config::Config;
use state::limits::{MOST, SLOTS};
use state::place::{Depth, Position, Span};
use state::run::{Made, Phase, Reader, Step};
use std::io;
use std::io::Write;
use tally::tally;

// The slots that there are to lend: a few more than the most names take.
const ROOM: usize = SLOTS * MOST + 10;

// How many phases there are.
const PHASES: usize = 6;

// Writes the answers below the line, if it has one of the forms.
pub fn answer<W: Write>(out: &mut W, text: &[u8]) -> io::Result<()> {
    let end = word(text, 0);
    let form = ground::part(text, 0, end);
    match number_of(
        form,
        b"run;state;content;column;attributes;feed;row;rows;outermost;plain;plain-state",
    ) {
        0 => run_case(out, text, end, false),
        1 => state_case(out, text, end, false),
        2 => content_case(out, text, end),
        3 => column_case(out, text, end),
        4 => attributes_case(out, text, end),
        5 => feed_case(out, text, end),
        6 => open_case(out, text, end, false),
        7 => open_case(out, text, end, true),
        8 => outermost_case(out, text, end),
        9 => run_case(out, text, end, true),
        10 => state_case(out, text, end, true),
        _ => Ok(())
    }
}

// A run, and the counts of another over the same document and stack; or a run by the plain engine. Its settings, its slots and its bytes stand after the space
// at `from`.
fn run_case<W: Write>(out: &mut W, text: &[u8], from: usize, plain: bool) -> io::Result<()> {
    let end = word(text, from);
    let settings = settings(ground::part(text, from, end));
    let slots = number(text, end);
    let mut space = [0u8; 4096];
    let n = bytes(text, slots.next, &mut space);
    let document = &space[..n];
    let mut stack = [0usize; ROOM];
    let lent = lent(slots.value, &stack);
    run(out, document, &mut stack[..lent], settings, plain)
}

fn run<W: Write>(
    out: &mut W,
    document: &[u8],
    stack: &mut [usize],
    settings: Config,
    plain: bool,
) -> io::Result<()> {
    calls(out, document, stack, settings, plain)?;
    if !plain {
        say_tally(out, tally(document, stack, settings))?;
    }
    Ok(())
}

fn calls<W: Write>(
    out: &mut W,
    document: &[u8],
    stack: &mut [usize],
    settings: Config,
    plain: bool,
) -> io::Result<()> {
    match Reader::new(document, settings) {
        Made::Fresh(reader) => all(out, reader, document, stack, plain),
        Made::Refused(_) => say(out, b"  refused 16 0\n"),
    }
}

// Calls until end of file, which comes after as many calls as the document has bytes and two more, or before, and once more.
fn all<W: Write>(
    out: &mut W,
    fresh: Reader,
    document: &[u8],
    stack: &mut [usize],
    plain: bool,
) -> io::Result<()> {
    let mut reader = fresh;
    let mut ended = false;
    let mut left = document.len() + 3;
    while 0 < left {
        left -= 1;
        let turn = call(out, reader, document, stack, plain)?;
        reader = turn.reader;
        say_names(out, reader, stack)?;
        if ended {
            break;
        }
        ended = turn.ended;
    }
    Ok(())
}

// A reader after a call, and whether the call answered end of file.
#[derive(Clone, Copy)]
struct Turn {
    reader: Reader,
    ended: bool,
}

// One call, by the reader or by the plain engine.
fn step(reader: Reader, document: &[u8], stack: &mut [usize], plain: bool) -> Step {
    if plain {
        plain::advance(reader, document, stack)
    } else {
        advance(reader, document, stack)
    }
}

// One call, and its answer written.
fn call<W: Write>(
    out: &mut W,
    reader: Reader,
    document: &[u8],
    stack: &mut [usize],
    plain: bool,
) -> io::Result<Turn> {
    let step = step(reader, document, stack, plain);
    let after = step.reader;
    let answer = step.answer;
    let values = answer.values();
    say_values(out, values)?;
    let eof = Kind::Eof;
    Ok(Turn {
        reader: after,
        ended: values.kind == eof.number(),
    })
}

// One call: the state that it starts from stands after the space at `from`, with the stack's values and the bytes behind it.
fn state_case<W: Write>(out: &mut W, text: &[u8], from: usize, plain: bool) -> io::Result<()> {
    let end = word(text, from);
    let settings = settings(ground::part(text, from, end));
    let next = word(text, end);
    let named = phase_word(ground::part(text, end, next));
    let phase = phase(named % PHASES);
    let position = number(text, next);
    let depth = number(text, position.next);
    let length = number(text, depth.next);
    let slots = number(text, length.next);
    let reader = Reader {
        phase,
        position: Position(position.value),
        depth: Depth(depth.value),
        length: length.value,
        settings,
        mark: PHASES <= named,
    };
    let mut stack = filled(text, slots.next);
    let lent = lent(slots.value, &stack);
    let mut space = [0u8; 4096];
    let n = bytes(text, word(text, slots.next), &mut space);
    one_call(out, reader, &space[..n], &mut stack[..lent], plain)
}

// A stack with the values that stand after the space at `from`, and 0 in the slots after them.
fn filled(text: &[u8], from: usize) -> [usize; ROOM]
    ensures { slots * most + 10 ≡ length result }
{
    let mut stack = [0usize; ROOM];
    values(text, from, &mut stack);
    stack
}

// The number of a phase's word, which stands after a space; where the mark is on, more by as many as there are.
fn phase_word(name: &[u8]) -> usize {
    number_of(
        name,
        b" init; text; markup; ref; empty; done; !init; !text; !markup; !ref; !empty; !done",
    )
}

fn phase(number: usize) -> Phase {
    match number {
        0 => Phase::Init,
        1 => Phase::InsideText,
        2 => Phase::InsideMarkup,
        3 => Phase::InsideRef,
        4 => Phase::InsideEmpty,
        _ => Phase::Done,
    }
}

// The call, and all that it leaves.
fn one_call<W: Write>(
    out: &mut W,
    reader: Reader,
    document: &[u8],
    stack: &mut [usize],
    plain: bool,
) -> io::Result<()> {
    let turn = call(out, reader, document, stack, plain)?;
    let after = turn.reader;
    say_reader(out, after)?;
    say_slots(out, stack)
}

// The bytes of a span.
fn content_case<W: Write>(out: &mut W, text: &[u8], from: usize) -> io::Result<()> {
    let start = number(text, from);
    let end = number(text, start.next);
    let mut space = [0u8; 4096];
    let n = bytes(text, end.next, &mut space);
    say(out, b"  ")?;
    let span = Span {
        from: start.value,
        to: end.value,
    };
    say(out, content(&space[..n], span))?;
    put(out, b'\n')
}

// The times of a document. How many slots the column and the stack have, and the bytes, stand after the space at `from`.
fn column_case<W: Write>(out: &mut W, text: &[u8], from: usize) -> io::Result<()> {
    let room = number(text, from);
    let slots = number(text, room.next);
    let mut space = [0u8; 4096];
    let n = bytes(text, slots.next, &mut space);
    let mut times = [9999usize; 16];
    let mut stack = [0usize; 16];
    let filled = lent(room.value, &times);
    let lent = lent(slots.value, &stack);
    times_of(out, &space[..n], &mut stack[..lent], &mut times[..filled])
}

fn times_of<W: Write>(
    out: &mut W,
    document: &[u8],
    stack: &mut [usize],
    times: &mut [usize],
) -> io::Result<()> {
    let summary = column(document, stack, times);
    say_column(out, summary)?;
    say_slots(out, times)?;
    say(out, b"  stack")?;
    say_slots(out, stack)
}

// The attributes of a tag, whose content stands after the space at `from`.
fn attributes_case<W: Write>(out: &mut W, text: &[u8], from: usize) -> io::Result<()> {
    let mut space = [0u8; 4096];
    let n = bytes(text, from, &mut space);
    attributes_of(out, &space[..n])
}

// Calls from the name on, up to the first that gives no attribute: there are fewer attributes than bytes.
fn attributes_of<W: Write>(out: &mut W, content: &[u8]) -> io::Result<()> {
    let name = white::name_len(content, 0, content.len());
    let mut at = name;
    let mut left = content.len() + 1;
    while 0 < left {
        left -= 1;
        let item = attributes::attribute(content, name, at);
        say_item(out, b"  ", item)?;
        put(out, b'\n')?;
        let values = item.values();
        if values.found == 0 {
            break;
        }
        at = values.next;
    }
    Ok(())
}
