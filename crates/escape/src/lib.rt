// References as characters (XML 1.0, section 4.6, and productions 66 and 2): of one reference, and of a whole text.
#![tactic(auto)]

pub mod answer;
pub mod reference;
pub mod scalar;
mod text;

ghost use Rattle.std.specs.Prelude.{length};
ghost use Rattle.escape.specs.Text.{one_text, whole_text, Put};

use crate::answer::{Fault, Written, refused};
use crate::reference::{Reference, read_reference};
use crate::scalar::encode;
use crate::text::{measure, write};

// The character of a reference, whose content is the bytes between `&` and `;`: its UTF-8 bytes, written from the place `at` of the galley on, and how many they are; or the first
// refusal of 25, 26 and 27, with nothing written.
pub fn resolve(content: &[u8], galley: &mut [u8], at: usize) -> Written
    ensures { Put (one_text content.now (length galley.old) at) galley.old at result galley.new }
{
    match read_reference(content) {
        Reference::NotOfForm => refused(Fault::NotOfForm, 0),
        Reference::NoCharacter => refused(Fault::NoCharacter, 0),
        Reference::Character(value) => {
            if galley.len() < at {
                return refused(Fault::NoRoom, 0);
            }
            // 0 where they do not fit: what a reference names is a scalar value
            let n = encode(value, &mut galley[at..]);
            if n == 0 {
                return refused(Fault::NoRoom, 0);
            }
            Written::Bytes(n)
        }
    }
}

// A text with each reference replaced by its character, written from the place `at` of the galley on, and how many bytes it has; or the first refusal from the
// left, with nothing written.
pub fn unescape(content: &[u8], galley: &mut [u8], at: usize) -> Written
    ensures { Put (whole_text content.now (length galley.old) at) galley.old at result galley.new }
{
    let measured = measure(content, galley.len(), at);
    match measured {
        Written::Refused(_) => measured,
        Written::Bytes(_) => {
            write(content, galley, at);
            measured
        }
    }
}
