// The column reader of `capi_column` that a host in Rust or C links (include/sporebasket.h), with the clause that it has there. It stands in a static library of its own, beside `capi_c`, so that
// each is compiled by itself: the reader is then part of the one function that calls it, in both.
#![tactic(auto)]

ghost use Rattle.capi_column.specs.Columns.{ColumnRead};

// Fills the first slots of the column with the times of the document, and writes how many there are, their order and the refusal.
#[unsafe(no_mangle)]
pub extern "C" fn sporebasket_column(
    document: &[u8],
    stack: &mut [usize],
    column: &mut [usize],
    answer: &mut [usize],
) -> usize
    ensures { ColumnRead document.now stack.old column.old answer.old result stack.new column.new answer.new }
{
    capi_column::sporebasket_column(document, stack, column, answer)
}
