// The settings by letters: each turns over the default of its flag.
//   a  allow_dangling_amp                   x  expand_empty_elements
//   u  allow_unmatched_ends                 m  trim_markup_names_in_closing_tags
//   c  check_comments                       s  trim_text_start
//   n  check_end_names                      e  trim_text_end
//   o  check_open_names
// After them T is `trim_text(true)`, t `trim_text(false)`, K `enable_all_checks(true)` and k `enable_all_checks(false)`.
use crate::line::{find, put};
use state::config::Config;
use std::io;
use std::io::Write;

pub fn settings(letters: &[u8]) -> Config {
    let d = Config::default();
    let turned = Config {
        allow_dangling_amp: turned(d.allow_dangling_amp, letters, b'a'),
        allow_unmatched_ends: turned(d.allow_unmatched_ends, letters, b'u'),
        check_comments: turned(d.check_comments, letters, b'c'),
        check_end_names: turned(d.check_end_names, letters, b'n'),
        expand_empty_elements: turned(d.expand_empty_elements, letters, b'x'),
        trim_markup_names_in_closing_tags: turned(
            d.trim_markup_names_in_closing_tags,
            letters,
            b'm',
        ),
        trim_text_start: turned(d.trim_text_start, letters, b's'),
        trim_text_end: turned(d.trim_text_end, letters, b'e'),
        check_open_names: turned(d.check_open_names, letters, b'o'),
    };
    checks(trims(turned, letters), letters)
}

fn has(letters: &[u8], letter: u8) -> bool {
    find(letters, 0, letter) < letters.len()
}

fn turned(flag: bool, letters: &[u8], letter: u8) -> bool {
    if has(letters, letter) { !flag } else { flag }
}

fn trims(config: Config, letters: &[u8]) -> Config {
    if has(letters, b'T') {
        config.trim_text(true)
    } else if has(letters, b't') {
        config.trim_text(false)
    } else {
        config
    }
}

fn checks(config: Config, letters: &[u8]) -> Config {
    if has(letters, b'K') {
        config.enable_all_checks(true)
    } else if has(letters, b'k') {
        config.enable_all_checks(false)
    } else {
        config
    }
}

// Writes the letters of the flags that are not at their default, or `-`.
pub fn say_settings<W: Write>(out: &mut W, c: Config) -> io::Result<()> {
    let d = Config::default();
    let mut said = false;
    said = say_flag(out, c.allow_dangling_amp, d.allow_dangling_amp, b'a', said)?;
    said = say_flag(
        out,
        c.allow_unmatched_ends,
        d.allow_unmatched_ends,
        b'u',
        said,
    )?;
    said = say_flag(out, c.check_comments, d.check_comments, b'c', said)?;
    said = say_flag(out, c.check_end_names, d.check_end_names, b'n', said)?;
    said = say_flag(
        out,
        c.expand_empty_elements,
        d.expand_empty_elements,
        b'x',
        said,
    )?;
    said = say_flag(
        out,
        c.trim_markup_names_in_closing_tags,
        d.trim_markup_names_in_closing_tags,
        b'm',
        said,
    )?;
    said = say_flag(out, c.trim_text_start, d.trim_text_start, b's', said)?;
    said = say_flag(out, c.trim_text_end, d.trim_text_end, b'e', said)?;
    said = say_flag(out, c.check_open_names, d.check_open_names, b'o', said)?;
    if !said {
        put(out, b'-')?;
    }
    Ok(())
}

// Writes the letter of a flag that is not at its default, and answers whether a letter is written by now.
fn say_flag<W: Write>(
    out: &mut W,
    flag: bool,
    default: bool,
    letter: u8,
    before: bool,
) -> io::Result<bool> {
    if flag == default {
        Ok(before)
    } else {
        put(out, letter)?;
        Ok(true)
    }
}
