// What a reference names (XML 1.0, section 4.6 and production 66).
ghost use Rattle.std.specs.Prelude.{◌≡◌, ◌+◌, ◌*◌, ◌≤◌, ◌<◌, drop, ltb};
ghost use Rattle.ground.specs.Choose.{pick};
ghost use Rattle.escape.specs.Reference.{digit as digit_of, number_of, char_of, reference_of};
ghost use Rattle.escape.specs.Inside.{past};

use crate::scalar::is_char;
use ground::{same, starts_with};

#[derive(Clone, Copy)]
pub enum Reference {
    Character(u32),
    // Neither a character reference nor one of the five names.
    NotOfForm,
    // A number that is no XML character's.
    NoCharacter,
}

// No number from here on is a character's.
const PAST: u32 = 0x110000;

// What a content, the bytes between `&` and `;`, names.
pub fn read_reference(content: &[u8]) -> Reference
    ensures { result ≡ reference_of content.now }
{
    if same(content, b"lt") {
        return Reference::Character(0x3C);
    }
    if same(content, b"gt") {
        return Reference::Character(0x3E);
    }
    if same(content, b"amp") {
        return Reference::Character(0x26);
    }
    if same(content, b"apos") {
        return Reference::Character(0x27);
    }
    if same(content, b"quot") {
        return Reference::Character(0x22);
    }
    if starts_with(content, 0, b"#x") {
        return number(content, 2, 16);
    }
    if starts_with(content, 0, b"#") {
        return number(content, 1, 10);
    }
    Reference::NotOfForm
}

// The character whose number the digits from `from` on are, in base 10 or 16. A number of any length is read: from PAST on it only has to stay there.
fn number(content: &[u8], from: usize, base: u32) -> Reference
    requires { (1 ≤ base) × (base ≤ 16) }
    ensures { result ≡ number_of base (drop from content.now) }
{
    if content.len() <= from {
        return Reference::NotOfForm;
    }
    let mut value = 0;
    let mut i = from;
    while i < content.len() {
        let digit = digit_of(content[i]);
        if base <= digit {
            return Reference::NotOfForm;
        }
        value = more(value, base, digit);
        i += 1;
    }
    character(value)
}

// A number with one digit more; one from PAST on stays as it is.
fn more(value: u32, base: u32, digit: u32) -> u32
    requires { (base ≤ 16) × (digit < base) }
    ensures { result ≡ pick (ltb value past) (value * base + digit) value }
{
    if value < PAST {
        return value * base + digit;
    }
    value
}

// The character of a number.
fn character(value: u32) -> Reference
    ensures { result ≡ char_of value }
{
    if is_char(value) {
        return Reference::Character(value);
    }
    Reference::NoCharacter
}

// The value of a digit; 16 for any other byte.
fn digit_of(b: u8) -> u32
    ensures { result ≡ digit_of b }
{
    match b {
        b'0'..=b'9' => (b - b'0') as u32,
        b'A'..=b'F' => (b - b'A') as u32 + 10,
        b'a'..=b'f' => (b - b'a') as u32 + 10,
        _ => 16,
    }
}
