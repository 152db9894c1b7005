// The way down for a host in Rust or C (include/sporebasket.h): the names that are open, three slots to each.
#![tactic(auto)]

ghost use Rattle.std.specs.Prelude.{◌+◌, ◌*◌, ◌≤◌, ◌≡◌, length};
ghost use Rattle.capi_rows.specs.Rows.{row_slots, row_put, Filling, RowTold, RowsTold};

use rows::row::{Filled, Given, Row};
use rows::{open_row, plan};
use state::place::{Depth, Position};

// How many slots a reader's state, a row and the answer of a list take.
const STATE_SLOTS: usize = 6;

const ROW_SLOTS: usize = 3;

const FILLED_SLOTS: usize = 1;

// The slots of a state that are looked at.
const POSITION: usize = 1;

const DEPTH: usize = 2;

// The number of the refusal of what is lent.
const BAD_STATE: usize = 17;

// Writes the row of the name at a depth, from 1 on.
pub fn sporebasket_open_row(
    stack: &[usize],
    state: &[usize],
    depth: usize,
    slots: &mut [usize],
) -> usize
    ensures { RowTold stack.now state.now depth slots.old result slots.new }
{
    if slots.len() < ROW_SLOTS {
        return BAD_STATE;
    }
    if state.len() < STATE_SLOTS {
        return BAD_STATE;
    }
    let position = Position(state[POSITION]);
    let names = Depth(state[DEPTH]);
    let given = open_row(stack, position, names, Depth(depth));
    match given {
        Given::Row(row) => {
            put(slots, 0, row);
            0
        }
        Given::BadState => given.number(),
    }
}

// Fills rows, the outermost name first, and writes how many were filled.
pub fn sporebasket_open_rows(
    stack: &[usize],
    state: &[usize],
    slots: &mut [usize],
    answer: &mut [usize],
) -> usize
    ensures { RowsTold stack.now state.now slots.old answer.old result slots.new answer.new }
{
    if answer.len() < FILLED_SLOTS {
        return BAD_STATE;
    }
    if state.len() < STATE_SLOTS {
        answer[0] = 0;
        return BAD_STATE;
    }
    let position = Position(state[POSITION]);
    let names = Depth(state[DEPTH]);
    let filled = fill(stack, position, names, slots);
    answer[0] = filled.count();
    filled.number()
}

// Fills rows, and tells how many.
fn fill(stack: &[usize], position: Position, names: Depth, slots: &mut [usize]) -> Filled
    ensures { Filling stack.now position names slots.old result slots.new }
{
    let filled = plan(stack, position, names, slots.len() / ROW_SLOTS);
    let count = filled.count();
    let mut i: usize = 0;
    while i < count {
        // the plan has looked at it
        let Given::Row(row) = open_row(stack, position, names, Depth(i + 1)) else {
            return filled;
        };
        put(slots, i * ROW_SLOTS, row);
        i += 1;
    }
    filled
}

// Writes the numbers of a row from a slot on.
fn put(slots: &mut [usize], at: usize, row: Row)
    requires { at + row_slots ≤ length slots.old }
    ensures { slots.new ≡ row_put slots.old at row }
{
    let start = row.start;
    let end = row.end;
    let depth = row.depth;
    slots[at] = start.0;
    slots[at + 1] = end.0;
    slots[at + 2] = depth.0;
}
