// The functions of `capi_rows` that a host in Rust or C links (include/sporebasket.h), with the clauses that they have there.
#![tactic(auto)]

ghost use Rattle.capi_rows.specs.Rows.{RowTold, RowsTold};

// Writes the row of the name at a depth, from 1 on.
#[unsafe(no_mangle)]
pub extern "C" fn sporebasket_open_row(
    stack: &[usize],
    state: &[usize],
    depth: usize,
    slots: &mut [usize],
) -> usize
    ensures { RowTold stack.now state.now depth slots.old result slots.new }
{
    capi_rows::sporebasket_open_row(stack, state, depth, slots)
}

// Fills rows, the outermost name first, and writes how many were filled.
#[unsafe(no_mangle)]
pub extern "C" fn sporebasket_open_rows(
    stack: &[usize],
    state: &[usize],
    slots: &mut [usize],
    answer: &mut [usize],
) -> usize
    ensures { RowsTold stack.now state.now slots.old answer.old result slots.new answer.new }
{
    capi_rows::sporebasket_open_rows(stack, state, slots, answer)
}
