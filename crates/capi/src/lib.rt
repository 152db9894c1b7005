// The functions that a host in Rust or C links (include/sporebasket.h): numbers and slices in, numbers out. Each answers 0 or the number of a refusal.
#![tactic(auto)]

mod bits;
pub mod slots;

ghost use Rattle.std.specs.Prelude.{◌≡◌};
ghost use Rattle.state.specs.Settings.{defaults};
ghost use Rattle.capi.specs.Numbers.{settings_number};
ghost use Rattle.capi.specs.Calls.{bad_number, Opened, Called, Parted};

use crate::bits::{config, settings_number};
use crate::slots::{
    ANSWER_SLOTS, Held, PART_SLOTS, STATE_SLOTS, bad, load, move_on, placed, put, store, tell,
};
use reader::advance;
use state::answer::Error;
use state::config::Config;
use state::place::Span;
use state::run::{Made, Reader};

// The settings of a reader to which none are given.
pub fn sporebasket_default_settings() -> usize
    ensures { result ≡ settings_number defaults }
{
    settings_number(Config::default())
}

// The number of the refusal of what is lent.
fn bad_number() -> usize
    ensures { result ≡ bad_number }
{
    let bad = Error::BadState;
    let said = bad.numbered();
    said.number
}

// Makes a reader over a document in the first slots of the state.
pub fn sporebasket_new(document: &[u8], settings: usize, state: &mut [usize]) -> usize
    ensures { Opened document.now settings state.old result state.new }
{
    if state.len() < STATE_SLOTS {
        return bad_number();
    }
    match Reader::new(document, config(settings)) {
        Made::Fresh(reader) => {
            store(state, reader);
            0
        }
        Made::Refused(refusal) => {
            let values = refusal.values();
            values.number
        }
    }
}

// The next answer; the state that was lent is then the one after it.
pub fn sporebasket_read_event(
    document: &[u8],
    stack: &mut [usize],
    state: &mut [usize],
    answer: &mut [usize],
) -> usize
    ensures { Called document.now stack.old state.old answer.old result stack.new state.new answer.new }
{
    if answer.len() < ANSWER_SLOTS {
        return bad_number();
    }
    match load(state) {
        Held::Reader(reader) => {
            let step = advance(reader, document, stack);
            let said = step.answer;
            let values = said.values();
            move_on(state, step.reader);
            tell(answer, values);
            values.number
        }
        Held::Nothing => {
            let said = bad();
            let values = said.values();
            tell(answer, values);
            values.number
        }
    }
}

// Where the bytes of a span stand in the document.
pub fn sporebasket_content(document: &[u8], from: usize, to: usize, part: &mut [usize]) -> usize
    ensures { Parted document.now from to part.old result part.new }
{
    if part.len() < PART_SLOTS {
        return bad_number();
    }
    let span = placed(document.len(), Span { from, to });
    let numbers = [span.from, span.to];
    put(part, &numbers);
    0
}
