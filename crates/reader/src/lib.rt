// The reader: one call at a time, from bytes to an event, end of file or a refusal.
#![tactic(auto)]

mod cut;
mod names;
pub mod piece;
mod sound;
mod turn;

ghost use Rattle.ground.specs.Part.{PartOf};
ghost use Rattle.reader.specs.Step.{Stepped};

use ground::part;
use state::place::Span;
use state::run::{Reader, Step};

// The next answer, and the reader after it. `document` and `stack` are those of the calls before; the stack holds the open names, two slots to a name, and a
// Start writes its name there.
pub fn advance(reader: Reader, document: &[u8], stack: &mut [usize]) -> Step
    ensures { Stepped document.now stack.old reader result stack.new }
{
    let step = turn::decide(reader, document, stack);
    let answer = step.answer;
    let depth = reader.depth;
    names::note(stack, depth, answer);
    step
}

// The bytes of a span, as a part of the caller's own document; the empty part at its end for a span that does not lie in it.
pub fn content(document: &[u8], span: Span) -> &[u8]
    ensures { PartOf document.entry span.from span.to result }
{
    part(document, span.from, span.to)
}
