// The way down to where a reader stands: the names that are open, the outermost first. Of a reader its position and the count of its names are looked at, and of
// the stack the entries that are asked for.
#![tactic(auto)]

pub mod row;

ghost use Rattle.std.specs.Prelude.{◌≡◌, min};
ghost use Rattle.rows.specs.Rows.{row_of, plan_of, Listed, outermost_of};

use crate::row::{Filled, Given, Row};
use state::limits::{SLOTS, capacity};
use state::place::{Depth, Position};

// The record of the name at a depth, from 1 on, of so many names that are open.
pub fn open_row(stack: &[usize], position: Position, names: Depth, depth: Depth) -> Given
    ensures { result ≡ row_of stack.now position names depth }
{
    let most = capacity(stack.len());
    if most.0 < names.0 {
        return Given::BadState;
    }
    if depth.0 == 0 {
        return Given::BadState;
    }
    if names.0 < depth.0 {
        return Given::BadState;
    }
    let at = (depth.0 - 1) * SLOTS;
    let start = stack[at];
    let end = stack[at + 1];
    if end < start {
        return Given::BadState;
    }
    if position.0 < end {
        return Given::BadState;
    }
    Given::Row(Row {
        start: Position(start),
        end: Position(end),
        depth,
    })
}

// How many records are filled where there is room for so many; each of them is looked at.
pub fn plan(stack: &[usize], position: Position, names: Depth, room: usize) -> Filled
    ensures { result ≡ plan_of stack.now position names room }
{
    let most = capacity(stack.len());
    if most.0 < names.0 {
        return Filled::BadState;
    }
    let count = lesser(names.0, room);
    let mut i: usize = 0;
    while i < count {
        let Given::Row(_) = open_row(stack, position, names, Depth(i + 1)) else {
            return Filled::BadState;
        };
        i += 1;
    }
    Filled::Rows(count)
}

fn lesser(a: usize, b: usize) -> usize
    ensures { result ≡ min a b }
{
    if a < b {
        return a;
    }
    b
}

// Fills the list with records, the outermost name first, and answers how many were filled. The records beyond stay as they were; where it is refused all do.
pub fn open_rows(stack: &[usize], position: Position, names: Depth, list: &mut [Row]) -> Filled
    ensures { Listed stack.now position names list.old result list.new }
{
    let filled = plan(stack, position, names, list.len());
    let count = filled.count();
    let mut i: usize = 0;
    while i < count {
        if let Given::Row(row) = open_row(stack, position, names, Depth(i + 1)) {
            list[i] = row;
        }
        i += 1;
    }
    filled
}

// The eight outermost records by value, for a caller that lends no list: a record of depth 0 is none, and where it is refused all are.
pub fn outermost(stack: &[usize], position: Position, names: Depth) -> [Row; 8]
    ensures { result ≡ outermost_of stack.now position names }
{
    let none = Row {
        start: Position(0),
        end: Position(0),
        depth: Depth(0),
    };
    let mut list = [none; 8];
    open_rows(stack, position, names, &mut list);
    list
}
