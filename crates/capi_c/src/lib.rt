// The functions of `capi` that a host in Rust or C links (include/sporebasket.h), with the clauses that they have there.
#![tactic(auto)]

ghost use Rattle.std.specs.Prelude.{◌≡◌};
ghost use Rattle.state.specs.Settings.{defaults};
ghost use Rattle.capi.specs.Numbers.{settings_number};
ghost use Rattle.capi.specs.Calls.{Opened, Called, Parted};

// The settings of a reader to which none are given.
#[unsafe(no_mangle)]
pub extern "C" fn sporebasket_default_settings() -> usize
    ensures { result ≡ settings_number defaults }
{
    capi::sporebasket_default_settings()
}

// Makes a reader over a document in the first slots of the state.
#[unsafe(no_mangle)]
pub extern "C" fn sporebasket_new(document: &[u8], settings: usize, state: &mut [usize]) -> usize
    ensures { Opened document.now settings state.old result state.new }
{
    capi::sporebasket_new(document, settings, state)
}

// The next answer; the state that was lent is then the one after it.
#[unsafe(no_mangle)]
pub extern "C" fn sporebasket_read_event(
    document: &[u8],
    stack: &mut [usize],
    state: &mut [usize],
    answer: &mut [usize],
) -> usize
    ensures { Called document.now stack.old state.old answer.old result stack.new state.new answer.new }
{
    capi::sporebasket_read_event(document, stack, state, answer)
}

// Where the bytes of a span stand in the document.
#[unsafe(no_mangle)]
pub extern "C" fn sporebasket_content(
    document: &[u8],
    from: usize,
    to: usize,
    part: &mut [usize],
) -> usize
    ensures { Parted document.now from to part.old result part.new }
{
    capi::sporebasket_content(document, from, to, part)
}
