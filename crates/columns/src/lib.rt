// The column reader: the times of a document's elements `t`, in a lent column. A library above the reader, proved from its promise and the theorems of `demands`.
#![tactic(auto)]

mod names;
pub mod order;
pub mod outcome;
pub mod spell;
mod text;
mod told;

ghost use Rattle.std.specs.Prelude.{◌≡◌, length};
ghost use Rattle.state.specs.declared.run.Made.{Made};
ghost use Rattle.state.specs.Make.{made};
ghost use Rattle.state.specs.Settings.{defaults};
ghost use Rattle.columns.specs.Column.{Columned};
ghost use Rattle.columns.specs.Inside.{ReadTo};

use crate::order::{Order, order_of};
use crate::outcome::Outcome;
use crate::told::{Filled, fill, is_eof, tells};
use reader::advance;
use state::config::Config;
use state::run::{Made, Reader};

// What is answered of a column.
#[derive(Clone, Copy)]
pub struct Summary {
    // How many times were filled in.
    pub count: usize,
    // What refused the rest of the document, if anything did.
    pub outcome: Outcome,
    // Whether the times never decrease.
    pub order: Order,
}

// Fills the first slots of the column with the times of the document, in its order: 60 times hours plus minutes. The stack is lent to the reader, whose
// settings are the default ones.
pub fn column(document: &[u8], stack: &mut [usize], column: &mut [usize]) -> Summary
    ensures { Columned document.now stack.old column.old result stack.new column.new }
{
    match Reader::new(document, Config::default()) {
        Made::Refused(refusal) => Summary {
            count: 0,
            outcome: Outcome::ReaderRefused(refusal),
            order: Order::Kept,
        },
        Made::Fresh(fresh) => {
            let filled = read(fresh, document, stack, column);
            let outcome = filled.outcome;
            let order = order_of(&column[..filled.count]);
            Summary {
                count: filled.count,
                outcome,
                order,
            }
        }
    }
}

// Calls the reader until end of file or a refusal. End of file comes after as many calls as the document has bytes and two more, or before.
fn read(fresh: Reader, document: &[u8], stack: &mut [usize], column: &mut [usize]) -> Filled
    requires { made (length document.now) defaults ≡ Made.Fresh fresh }
    ensures { ReadTo document.now stack.old column.old result stack.new column.new }
{
    let mut reader = fresh;
    let mut count = 0;
    let mut i = 0;
    let calls = document.len() + 2;
    while i < calls {
        i += 1;
        let step = advance(reader, document, stack);
        reader = step.reader;
        let answer = step.answer;
        if is_eof(answer) {
            return Filled {
                count,
                outcome: Outcome::Whole,
            };
        }
        let depth = reader.depth;
        let told = tells(document, stack, depth, answer);
        let filled = fill(column, count, told);
        count = filled.count;
        let outcome = filled.outcome;
        if outcome.is_refused() {
            return filled;
        }
    }
    Filled {
        count,
        outcome: Outcome::Whole,
    }
}
