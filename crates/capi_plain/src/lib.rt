// The plain engine for a host in Rust or C (include/sporebasket.h): lent and answered as `sporebasket_read_event` of `capi` is.
#![tactic(auto)]

ghost use Rattle.capi.specs.Calls.{Called};

use capi::slots::{ANSWER_SLOTS, Held, bad, load, move_on, tell};
use plain::advance;

// The number of the refusal of what is lent.
const BAD_STATE: usize = 17;

// The next answer; the state that was lent is then the one after it.
pub fn sporebasket_plain_read_event(
    document: &[u8],
    stack: &mut [usize],
    state: &mut [usize],
    answer: &mut [usize],
) -> usize
    ensures { Called document.now stack.old state.old answer.old result stack.new state.new answer.new }
{
    if answer.len() < ANSWER_SLOTS {
        return BAD_STATE;
    }
    match load(state) {
        Held::Reader(reader) => {
            let step = advance(reader, document, stack);
            let said = step.answer;
            let values = said.values();
            move_on(state, step.reader);
            tell(answer, values);
            values.number
        }
        Held::Nothing => {
            let said = bad();
            let values = said.values();
            tell(answer, values);
            values.number
        }
    }
}
