// Attributes for a host in Rust or C (include/sporebasket.h): of a content that is a part of its document. Places are told in the document.
#![tactic(auto)]

ghost use Rattle.std.specs.Prelude.{◌≡◌, ◌++◌, ◌+◌, ◌<◌, ◌≤◌, ◌^◌, length, drop};
ghost use Rattle.capi_attributes.specs.Inside.{Movable};
ghost use Rattle.capi_attributes.specs.Attributes.{bad_values, attribute_slots, item_numbers, moved as moved_of, moved_extent, moved_first, attribute_in, found_in, Told};

use attributes::attribute;
use attributes::find::find;
use attributes::item::{Extent, Fault, Item, Values, refused};
use ground::part;

// How many slots the answer takes.
const ATTRIBUTE_SLOTS: usize = 9;

// The numbers of two refusals: one has no place in the document, and one has a second place.
const BAD_STATE: usize = 17;

const NAME_USED: usize = 24;

// The attribute at the place `at` of the document, in the content `from` .. `to` whose name has `name` bytes. Writes its spans and where to go on, or the
// place of the refusal.
pub fn sporebasket_attribute(
    document: &[u8],
    from: usize,
    to: usize,
    name: usize,
    at: usize,
    answer: &mut [usize],
) -> usize
    ensures { Told (attribute_in document.now from to name at) answer.old result answer.new }
{
    if answer.len() < ATTRIBUTE_SLOTS {
        return BAD_STATE;
    }
    let values = attribute_in(document, from, to, name, at);
    report(answer, values);
    values.number
}

// The same for the first attribute with the name `wanted`.
pub fn sporebasket_find_attribute(
    document: &[u8],
    from: usize,
    to: usize,
    name: usize,
    wanted: &[u8],
    answer: &mut [usize],
) -> usize
    ensures { Told (found_in document.now from to name wanted.now) answer.old result answer.new }
{
    if answer.len() < ATTRIBUTE_SLOTS {
        return BAD_STATE;
    }
    let values = find_in(document, from, to, name, wanted);
    report(answer, values);
    values.number
}

// What a call answers, with places in the document.
fn attribute_in(document: &[u8], from: usize, to: usize, name: usize, at: usize) -> Values
    ensures { result ≡ attribute_in document.now from to name at }
{
    if to < from {
        return bad();
    }
    if document.len() < to {
        return bad();
    }
    if at < from {
        return bad();
    }
    let item = attribute(part(document, from, to), name, at - from);
    moved(item.values(), from)
}

// What a search answers, with places in the document.
fn find_in(document: &[u8], from: usize, to: usize, name: usize, wanted: &[u8]) -> Values
    ensures { result ≡ found_in document.now from to name wanted.now }
{
    if to < from {
        return bad();
    }
    if document.len() < to {
        return bad();
    }
    let item = find(part(document, from, to), name, wanted);
    moved(item.values(), from)
}

// The refusal of what is lent.
fn bad() -> Values
    ensures { result ≡ bad_values }
{
    let item = refused(Fault::BadState, 0);
    item.values()
}

// An answer on a content that begins at the place `by` of the document, with its places counted in the document.
fn moved(values: Values, by: usize) -> Values
    requires { Movable by values }
    ensures { result ≡ moved_of by values }
{
    let name = values.name;
    let value = values.value;
    if values.found == 1 {
        return Values {
            found: 1,
            name: moved_extent(name, by),
            value: moved_extent(value, by),
            next: by + values.next,
            number: values.number,
            place: values.place,
            quote: values.quote,
            first: values.first,
        };
    }
    if values.number == 0 {
        return values;
    }
    if values.number == BAD_STATE {
        return values;
    }
    let first = moved_first(values.number, values.first, by);
    Values {
        found: values.found,
        name,
        value,
        next: values.next,
        number: values.number,
        place: by + values.place,
        quote: values.quote,
        first,
    }
}

fn moved_extent(extent: Extent, by: usize) -> Extent
    requires { (by + extent.from < 2 ^ 64) × (by + extent.to < 2 ^ 64) }
    ensures { result ≡ moved_extent by extent }
{
    Extent {
        from: by + extent.from,
        to: by + extent.to,
    }
}

// The second place of a refusal, where it has one.
fn moved_first(number: usize, first: usize, by: usize) -> usize
    requires { by + first < 2 ^ 64 }
    ensures { result ≡ moved_first by number first }
{
    if number == NAME_USED {
        return by + first;
    }
    first
}

// Writes an answer's numbers.
fn report(answer: &mut [usize], values: Values)
    requires { attribute_slots ≤ length answer.old }
    ensures { answer.new ≡ item_numbers values ++ drop attribute_slots answer.old }
{
    answer[0] = values.found;
    answer[1] = values.name.from;
    answer[2] = values.name.to;
    answer[3] = values.value.from;
    answer[4] = values.value.to;
    answer[5] = values.next;
    answer[6] = values.place;
    answer[7] = values.quote;
    answer[8] = values.first;
}
