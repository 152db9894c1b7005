// The cases of rows that are open.
use crate::says::say_slots;
use capi_rows::{sporebasket_open_row, sporebasket_open_rows};
use lines::line::{lent, number, put, say, say_number, say_numbers, values};
use rows::outermost;
use rows::row::Row;
use state::place::{Depth, Position};
use std::io;
use std::io::Write;

// The row at a depth, or a list of so many slots. What is asked for, the position, how many names are open, how many slots the stack has and what these hold stand after
// the space at `from`.
pub fn open_case<W: Write>(out: &mut W, text: &[u8], from: usize, list: bool) -> io::Result<()> {
    let asked = number(text, from);
    let position = number(text, asked.next);
    let names = number(text, position.next);
    let slots = number(text, names.next);
    let mut stack = [0usize; 16];
    values(text, slots.next, &mut stack);
    let slots = lent(slots.value, &stack);
    // of the state nothing but the position and the names is looked at
    let state = [9, position.value, names.value, 7, 600, 5];
    if list {
        let mut rows = [9999usize; 16];
        let room = lent(asked.value, &rows);
        fill(out, &stack[..slots], &state, &mut rows[..room])
    } else {
        one(out, &stack[..slots], &state, asked.value)
    }
}

// The row at a depth, in slots that hold 9999 before.
fn one<W: Write>(out: &mut W, stack: &[usize], state: &[usize], depth: usize) -> io::Result<()> {
    let mut row = [9999usize; 4];
    let refusal = sporebasket_open_row(stack, state, depth, &mut row);
    say_told(out, refusal, b"  row")?;
    say_slots(out, &row)
}

// The rows that a list takes, and how many: two slots that hold 9999 before.
fn fill<W: Write>(
    out: &mut W,
    stack: &[usize],
    state: &[usize],
    rows: &mut [usize],
) -> io::Result<()> {
    let mut answer = [9999usize; 2];
    let refusal = sporebasket_open_rows(stack, state, rows, &mut answer);
    say_told(out, refusal, b"  rows")?;
    let told = [answer[0], answer[1]];
    say_numbers(out, b" # # |", &told)?;
    say_slots(out, rows)
}

// The refusal, or what is told.
fn say_told<W: Write>(out: &mut W, refusal: usize, told: &[u8]) -> io::Result<()> {
    if refusal != 0 {
        say_number(out, b"  refused ", refusal)
    } else {
        say(out, told)
    }
}

// The eight outermost names by value. The position, how many names are open, how many slots the stack has and what these hold stand after the space at `from`.
pub fn outermost_case<W: Write>(out: &mut W, text: &[u8], from: usize) -> io::Result<()> {
    let position = number(text, from);
    let names = number(text, position.next);
    let slots = number(text, names.next);
    let mut stack = [0usize; 20];
    values(text, slots.next, &mut stack);
    let slots = lent(slots.value, &stack);
    say_rows(
        out,
        &stack[..slots],
        Position(position.value),
        Depth(names.value),
    )
}

fn say_rows<W: Write>(
    out: &mut W,
    stack: &[usize],
    position: Position,
    names: Depth,
) -> io::Result<()> {
    let rows = outermost(stack, position, names);
    let mut i = 0;
    while i < 8 {
        say_row(out, rows[i])?;
        i += 1;
    }
    put(out, b'\n')
}

fn say_row<W: Write>(out: &mut W, row: Row) -> io::Result<()> {
    let start = row.start;
    let end = row.end;
    let depth = row.depth;
    let numbers = [start.0, end.0, depth.0];
    say_numbers(out, b"  #..# #", &numbers)
}
