// A character by its number: XML's characters (XML 1.0, production 2), and the UTF-8 bytes of a scalar value (RFC 3629, section 3).
ghost use Rattle.std.specs.Prelude.{◌≡◌, ◌+◌, ◌/◌, ◌%◌, ◌≤◌, ◌<◌, true, ◌++◌, length, drop};
ghost use Rattle.escape.specs.Scalar.{is_char, is_scalar, tail as tail_of, octets, Encoded};

// Whether the number is that of an XML character.
pub fn is_char(value: u32) -> bool
    ensures { result ≡ is_char value }
{
    match value {
        0x9 => true,
        0xA => true,
        0xD => true,
        0x20..=0xD7FF => true,
        0xE000..=0xFFFD => true,
        0x10000..=0x10FFFF => true,
        _ => false,
    }
}

// Whether it is a scalar value: up to 10FFFF, all but the surrogates.
pub fn is_scalar(value: u32) -> bool
    ensures { result ≡ is_scalar value }
{
    match value {
        0x0..=0xD7FF => true,
        0xE000..=0x10FFFF => true,
        _ => false,
    }
}

// The UTF-8 writer: the bytes of a scalar value, at the start of what is lent, and how many they are. 0 where the number is no scalar value or they do not
// fit: nothing is written then.
pub fn encode(value: u32, out: &mut [u8]) -> usize
    ensures { Encoded value out.old result out.new }
{
    if is_scalar(value) {
        let n = width(value);
        if out.len() < n {
            return 0;
        }
        put(value, out);
        return n;
    }
    0
}

// How many bytes a scalar value takes: one to four, by the number alone.
pub fn width(value: u32) -> usize
    ensures { result ≡ length (octets value) }
{
    match value {
        0x0..=0x7F => 1,
        0x80..=0x7FF => 2,
        0x800..=0xFFFF => 3,
        _ => 4,
    }
}

// Writes the bytes of a scalar value, which fit.
fn put(value: u32, out: &mut [u8])
    requires { (is_scalar value ≡ true) × (length (octets value) ≤ length out.old) }
    ensures { out.new ≡ octets value ++ drop (length (octets value)) out.old }
{
    match value {
        0x0..=0x7F => {
            out[0] = value as u8;
        }
        0x80..=0x7FF => {
            out[0] = 0xC0 + (value / 0x40) as u8;
            out[1] = tail(value, 1);
        }
        0x800..=0xFFFF => {
            out[0] = 0xE0 + (value / 0x1000) as u8;
            out[1] = tail(value, 0x40);
            out[2] = tail(value, 1);
        }
        _ => {
            out[0] = 0xF0 + (value / 0x40000) as u8;
            out[1] = tail(value, 0x1000);
            out[2] = tail(value, 0x40);
            out[3] = tail(value, 1);
        }
    }
}

// A byte behind the first: six bits of the value.
fn tail(value: u32, by: u32) -> u8
    requires { 0 < by }
    ensures { result ≡ tail_of by value }
{
    0x80 + (value / by % 0x40) as u8
}
