// The column reader that a host in Rust or C links (include/sporebasket.h). It stands in a crate of its own, beside `capi`, so that each is compiled by itself: the
// reader is then part of the one function that calls it, in both.
#![tactic(auto)]

ghost use Rattle.std.specs.Prelude.{◌≡◌, ◌≤◌, length};
ghost use Rattle.columns.specs.Column.{filled_with};
ghost use Rattle.capi_column.specs.Columns.{bad_number, summary_numbers, column_slots, ColumnRead};

use columns::column as read_column;
use columns::order::Order;
use state::answer::{Error, Values};

// How many slots the answer takes.
const COLUMN_SLOTS: usize = 10;

// Fills the first slots of the column with the times of the document, and writes how many there are, their order and the refusal.
pub fn sporebasket_column(
    document: &[u8],
    stack: &mut [usize],
    column: &mut [usize],
    answer: &mut [usize],
) -> usize
    ensures { ColumnRead document.now stack.old column.old answer.old result stack.new column.new answer.new }
{
    if answer.len() < COLUMN_SLOTS {
        return bad_number();
    }
    let summary = read_column(document, stack, column);
    let outcome = summary.outcome;
    let order = summary.order;
    let values = outcome.values();
    report(answer, summary.count, order, values);
    values.number
}

// The number of the refusal of what is lent.
fn bad_number() -> usize
    ensures { result ≡ bad_number }
{
    let bad = Error::BadState;
    let said = bad.numbered();
    said.number
}

// Writes the count, the order and the numbers of the refusal.
fn report(answer: &mut [usize], count: usize, order: Order, values: Values)
    requires { column_slots ≤ length answer.old }
    ensures { answer.new ≡ filled_with (summary_numbers count order values) answer.old }
{
    let lower = order.number();
    answer[0] = count;
    answer[1] = lower;
    answer[2] = values.number;
    answer[3] = values.place;
    answer[4] = values.piece.from;
    answer[5] = values.piece.to;
    answer[6] = values.expected.from;
    answer[7] = values.expected.to;
    answer[8] = values.found.from;
    answer[9] = values.found.to;
}
