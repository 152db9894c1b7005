// The text of a time.
ghost use Rattle.std.specs.Prelude.{◌≡◌, ◌-◌, ◌≤◌};
ghost use Rattle.columns.specs.Time.{is_digit, digit as digit_of, two_digits, cleared as cleared_of, is_clock as is_clock_of, read_time};

use ground::part;
use white::{trim_end, trim_start};

// What text tells.
#[derive(Clone, Copy)]
pub enum Text {
    // It is empty, or white space alone.
    Empty,
    // A time: 60 times hours plus minutes.
    Time(usize),
    // Anything else.
    Other,
}

// The last hour and the last minute.
const LAST_HOUR: usize = 47;

const LAST_MINUTE: usize = 59;

// What text tells once both its ends are cleared of white space.
pub fn read_time(text: &[u8]) -> Text
    ensures { result ≡ read_time text.now }
{
    let time = cleared(text);
    if time.len() == 0 {
        return Text::Empty;
    }
    if !is_clock(time) {
        return Text::Other;
    }
    let hours = two_digits(time[0], time[1]);
    let minutes = two_digits(time[3], time[4]);
    if LAST_HOUR < hours {
        return Text::Other;
    }
    if LAST_MINUTE < minutes {
        return Text::Other;
    }
    Text::Time(60 * hours + minutes)
}

// Without the white space at both ends.
fn cleared(text: &[u8]) -> &[u8]
    ensures { result.now ≡ cleared_of text.now }
{
    let from = trim_start(text, 0, text.len());
    let to = trim_end(text, from, text.len());
    part(text, from, to)
}

// Whether bytes are two digits, a colon and two digits.
fn is_clock(s: &[u8]) -> bool
    ensures { result ≡ is_clock_of s.now }
{
    if s.len() != 5 {
        return false;
    }
    is_digit(s[0]) & is_digit(s[1]) & (s[2] == b':') & is_digit(s[3]) & is_digit(s[4])
}

fn is_digit(b: u8) -> bool
    ensures { result ≡ is_digit b }
{
    (b'0' <= b) & (b <= b'9')
}

// What a digit stands for.
fn digit(b: u8) -> usize
    ensures { (result ≡ digit_of b) × (result ≤ 255) }
{
    if b < b'0' { 0 } else { (b - b'0') as usize }
}

// What two digits stand for.
fn two_digits(tens: u8, ones: u8) -> usize
    ensures { (result ≡ two_digits tens ones) × (result ≤ 2805) }
{
    10 * digit(tens) + digit(ones)
}
