// The settings as one number, a bit each.
ghost use Rattle.std.specs.Prelude.{◌≡◌, ◌%◌, ◌≤◌, eqb};
ghost use Rattle.ground.specs.Choose.{pick};
ghost use Rattle.capi.specs.Numbers.{config_of, settings_number};

use state::config::Config;

fn odd(n: usize) -> bool
    ensures { result ≡ eqb (n % 2) 1 }
{
    n % 2 == 1
}

// The settings whose bits are set. Bits that stand for no setting do not count.
pub fn config(n: usize) -> Config
    ensures { result ≡ config_of n }
{
    Config {
        allow_dangling_amp: odd(n),
        allow_unmatched_ends: odd(n / 2),
        check_comments: odd(n / 4),
        check_end_names: odd(n / 8),
        expand_empty_elements: odd(n / 16),
        trim_markup_names_in_closing_tags: odd(n / 32),
        trim_text_start: odd(n / 64),
        trim_text_end: odd(n / 128),
        check_open_names: odd(n / 256),
    }
}

// The bit's weight where a flag is on, 0 where it is off.
pub fn weigh(flag: bool, weight: usize) -> usize
    ensures { (result ≡ pick flag weight 0) × (result ≤ weight) }
{
    if flag { weight } else { 0 }
}

pub fn settings_number(c: Config) -> usize
    ensures { result ≡ settings_number c }
{
    let amp = weigh(c.allow_dangling_amp, 1);
    let ends = weigh(c.allow_unmatched_ends, 2);
    let comments = weigh(c.check_comments, 4);
    let names = weigh(c.check_end_names, 8);
    let empty = weigh(c.expand_empty_elements, 16);
    let closing = weigh(c.trim_markup_names_in_closing_tags, 32);
    let start = weigh(c.trim_text_start, 64);
    let end = weigh(c.trim_text_end, 128);
    let open = weigh(c.check_open_names, 256);
    amp + ends + comments + names + empty + closing + start + end + open
}
