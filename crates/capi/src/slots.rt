// A reader's state, an answer and a part of the document as lent slots.
ghost use Rattle.std.specs.Prelude.{◌≡◌, take};
ghost use Rattle.capi.specs.Numbers.{phase_number, phase_of, held_of, noted, state_numbers, values_numbers};
ghost use Rattle.capi.specs.Slots.{put as put_in, placed as placed_of};
ghost use Rattle.state.specs.Make.{bad_answer};

use crate::bits::{config, settings_number, weigh};
use state::answer::{Answer, Error, Refusal, Values};
use state::place::{Depth, Position, Span};
use state::run::{Phase, Reader};

// How many slots each takes.
pub const STATE_SLOTS: usize = 6;

pub const ANSWER_SLOTS: usize = 12;

pub const PART_SLOTS: usize = 2;

// The largest number of a phase, and of settings.
const LAST_PHASE: usize = 5;

const LAST_SETTINGS: usize = 511;

// The slot of the mark.
const MARK: usize = 5;

// The reader that slots hold.
#[derive(Clone, Copy)]
pub enum Held {
    Reader(Reader),
    Nothing,
}

fn phase_number(phase: Phase) -> usize
    ensures { result ≡ phase_number phase }
{
    match phase {
        Phase::Init => 0,
        Phase::InsideText => 1,
        Phase::InsideMarkup => 2,
        Phase::InsideRef => 3,
        Phase::InsideEmpty => 4,
        Phase::Done => 5,
    }
}

fn phase(n: usize) -> Phase
    ensures { result ≡ phase_of n }
{
    match n {
        0 => Phase::Init,
        1 => Phase::InsideText,
        2 => Phase::InsideMarkup,
        3 => Phase::InsideRef,
        4 => Phase::InsideEmpty,
        _ => Phase::Done,
    }
}

// The reader whose numbers the slots begin with.
pub fn load(state: &[usize]) -> Held
    ensures { result ≡ held_of state.now }
{
    if state.len() < STATE_SLOTS {
        return Held::Nothing;
    }
    if LAST_PHASE < state[0] {
        return Held::Nothing;
    }
    if LAST_SETTINGS < state[4] {
        return Held::Nothing;
    }
    Held::Reader(Reader {
        phase: phase(state[0]),
        position: Position(state[1]),
        depth: Depth(state[2]),
        length: state[3],
        settings: config(state[4]),
        mark: state[MARK] != 0,
    })
}

// Writes numbers into the first slots, where there is room for all of them.
pub fn put(slots: &mut [usize], numbers: &[usize])
    ensures { slots.new ≡ put_in slots.old numbers.now }
{
    if slots.len() < numbers.len() {
        return;
    }
    let mut i = 0;
    while i < numbers.len() {
        slots[i] = numbers[i];
        i += 1;
    }
}

// Writes a reader's numbers, the mark as 1 or 0.
pub fn store(state: &mut [usize], reader: Reader)
    ensures { state.new ≡ put_in state.old (state_numbers 0 reader) }
{
    let phase = reader.phase;
    let position = reader.position;
    let depth = reader.depth;
    let settings = reader.settings;
    let numbers = [
        phase_number(phase),
        position.0,
        depth.0,
        reader.length,
        settings_number(settings),
        weigh(reader.mark, 1),
    ];
    put(state, &numbers);
}

// Writes those of a reader's numbers that a call can change: its length and its settings stand in the slots already.
pub fn move_on(state: &mut [usize], reader: Reader)
    ensures { state.new ≡ put_in (noted state.old reader.mark) (take 3 (state_numbers 0 reader)) }
{
    let phase = reader.phase;
    let position = reader.position;
    let depth = reader.depth;
    note(state, reader.mark);
    let numbers = [phase_number(phase), position.0, depth.0];
    put(state, &numbers);
}

// Writes a mark that is on, where its slot says that it is off.
fn note(state: &mut [usize], mark: bool)
    ensures { state.new ≡ noted state.old mark }
{
    if mark {
        if MARK < state.len() {
            if state[MARK] == 0 {
                state[MARK] = 1;
            }
        }
    }
}

// Writes an answer's numbers.
pub fn tell(answer: &mut [usize], values: Values)
    ensures { answer.new ≡ put_in answer.old (values_numbers values) }
{
    let numbers = [
        values.kind,
        values.number,
        values.place,
        values.piece.from,
        values.piece.to,
        values.content.from,
        values.content.to,
        values.name,
        values.expected.from,
        values.expected.to,
        values.found.from,
        values.found.to,
    ];
    put(answer, &numbers);
}

// The refusal of slots that hold no reader.
pub fn bad() -> Answer
    ensures { result ≡ bad_answer }
{
    Answer::Refused(Refusal {
        error: Error::BadState,
        place: Position(0),
        piece: Span { from: 0, to: 0 },
    })
}

// A span that lies in n bytes; the empty one at their end for one that does not.
pub fn placed(n: usize, span: Span) -> Span
    ensures { result ≡ placed_of n span }
{
    if span.to < span.from {
        return Span { from: n, to: n };
    }
    if n < span.to {
        return Span { from: n, to: n };
    }
    span
}
