// References as characters, for a host in Rust or C (include/sporebasket.h).
#![tactic(auto)]

ghost use Rattle.std.specs.Prelude.{◌≡◌, ◌++◌, ◌≤◌, length, drop};
ghost use Rattle.escape.specs.Text.{one_text, whole_text};
ghost use Rattle.capi_escape.specs.Told.{unescape_slots, numbers_of, Told};

use escape::answer::Values;
use escape::{resolve, unescape};

// How many slots the answer takes.
const UNESCAPE_SLOTS: usize = 2;

// The number of the refusal where the answer has too few slots.
const BAD_STATE: usize = 17;

// The character of a reference, whose content is given, from the place `at` of the galley on. Writes how many bytes it has.
pub fn sporebasket_reference(
    content: &[u8],
    galley: &mut [u8],
    at: usize,
    answer: &mut [usize],
) -> usize
    ensures { Told (one_text content.now (length galley.old) at) galley.old at answer.old result galley.new answer.new }
{
    if answer.len() < UNESCAPE_SLOTS {
        return BAD_STATE;
    }
    let written = resolve(content, galley, at);
    let values = written.values();
    report(answer, values);
    values.number
}

// A text with each reference replaced by its character, from the place `at` of the galley on. Writes how many bytes it has, or the place of the refusal.
pub fn sporebasket_unescape(
    content: &[u8],
    galley: &mut [u8],
    at: usize,
    answer: &mut [usize],
) -> usize
    ensures { Told (whole_text content.now (length galley.old) at) galley.old at answer.old result galley.new answer.new }
{
    if answer.len() < UNESCAPE_SLOTS {
        return BAD_STATE;
    }
    let written = unescape(content, galley, at);
    let values = written.values();
    report(answer, values);
    values.number
}

// Writes an answer's numbers.
fn report(answer: &mut [usize], values: Values)
    requires { unescape_slots ≤ length answer.old }
    ensures { answer.new ≡ numbers_of values ++ drop unescape_slots answer.old }
{
    answer[0] = values.count;
    answer[1] = values.place;
}
