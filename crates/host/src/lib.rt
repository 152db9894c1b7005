// The thin call: a reader that is lent is moved on in place.
#![tactic(auto)]

ghost use Rattle.host.specs.Read.{Read};

use reader::advance;
use state::answer::Answer;
use state::run::Reader;

// The next answer; the reader that was lent is then the one after it. A run lends every call the same document and stack, as for `advance`; whatever is
// lent, the answer is the definition's.
pub fn read_event(reader: &mut Reader, document: &[u8], stack: &mut [usize]) -> Answer
    ensures { Read document.now stack.old reader.old result reader.new stack.new }
{
    let step = advance(*reader, document, stack);
    *reader = step.reader;
    step.answer
}
