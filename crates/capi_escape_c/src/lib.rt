// The functions of `capi_escape` that a host in Rust or C links (include/sporebasket.h), with the clauses that they have there.
#![tactic(auto)]

ghost use Rattle.std.specs.Prelude.{length};
ghost use Rattle.escape.specs.Text.{one_text, whole_text};
ghost use Rattle.capi_escape.specs.Told.{Told};

// The character of a reference, whose content is given, from the place `at` of the galley on. Writes how many bytes it has.
#[unsafe(no_mangle)]
pub extern "C" fn sporebasket_reference(
    content: &[u8],
    galley: &mut [u8],
    at: usize,
    answer: &mut [usize],
) -> usize
    ensures { Told (one_text content.now (length galley.old) at) galley.old at answer.old result galley.new answer.new }
{
    capi_escape::sporebasket_reference(content, galley, at, answer)
}

// A text with each reference replaced by its character, from the place `at` of the galley on. Writes how many bytes it has, or the place of the refusal.
#[unsafe(no_mangle)]
pub extern "C" fn sporebasket_unescape(
    content: &[u8],
    galley: &mut [u8],
    at: usize,
    answer: &mut [usize],
) -> usize
    ensures { Told (whole_text content.now (length galley.old) at) galley.old at answer.old result galley.new answer.new }
{
    capi_escape::sporebasket_unescape(content, galley, at, answer)
}
