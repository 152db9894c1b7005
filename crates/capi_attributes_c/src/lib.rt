// The functions of `capi_attributes` that a host in Rust or C links (include/sporebasket.h), with the clauses that they have there.
#![tactic(auto)]

ghost use Rattle.capi_attributes.specs.Attributes.{attribute_in, found_in, Told};

// The attribute at the place `at` of the document, in the content `from` .. `to` whose name has `name` bytes. Writes its spans and where to go on, or the
// place of the refusal.
#[unsafe(no_mangle)]
pub extern "C" fn sporebasket_attribute(
    document: &[u8],
    from: usize,
    to: usize,
    name: usize,
    at: usize,
    answer: &mut [usize],
) -> usize
    ensures { Told (attribute_in document.now from to name at) answer.old result answer.new }
{
    capi_attributes::sporebasket_attribute(document, from, to, name, at, answer)
}

// The same for the first attribute with the name `wanted`.
#[unsafe(no_mangle)]
pub extern "C" fn sporebasket_find_attribute(
    document: &[u8],
    from: usize,
    to: usize,
    name: usize,
    wanted: &[u8],
    answer: &mut [usize],
) -> usize
    ensures { Told (found_in document.now from to name wanted.now) answer.old result answer.new }
{
    capi_attributes::sporebasket_find_attribute(document, from, to, name, wanted, answer)
}
