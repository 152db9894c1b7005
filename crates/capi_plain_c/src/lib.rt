// The functions of `capi_plain` that a host in Rust or C links (include/sporebasket.h), with the clauses that they have there.
#![tactic(auto)]

ghost use Rattle.capi.specs.Calls.{Called};

// The next answer; the state that was lent is then the one after it.
#[unsafe(no_mangle)]
pub extern "C" fn sporebasket_plain_read_event(
    document: &[u8],
    stack: &mut [usize],
    state: &mut [usize],
    answer: &mut [usize],
) -> usize
    ensures { Called document.now stack.old state.old answer.old result stack.new state.new answer.new }
{
    capi_plain::sporebasket_plain_read_event(document, stack, state, answer)
}
