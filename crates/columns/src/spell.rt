// A time as it is printed: two digits, a colon and two digits.
ghost use Rattle.std.specs.Prelude.{◌≡◌, ◌+◌, ◌≤◌};
ghost use Rattle.columns.specs.Time.{zero_digit, spelt_at};

// The byte with this index, from 0 to 4, of the text of a value; past it the last one. Of the hours the last two digits are printed: a time has no more.
pub fn spell(value: usize, index: usize) -> u8
    ensures { result ≡ spelt_at value index }
{
    let hours = value / 60;
    let minutes = value % 60;
    match index {
        0 => digit_for(hours / 10 % 10),
        1 => digit_for(hours % 10),
        2 => b':',
        3 => digit_for(minutes / 10),
        _ => digit_for(minutes % 10),
    }
}

// The digit that stands for a number below 10.
fn digit_for(n: usize) -> u8
    requires { n ≤ 9 }
    ensures { result ≡ zero_digit + n }
{
    b'0' + n as u8
}
