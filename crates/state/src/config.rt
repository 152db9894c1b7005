// The settings.
ghost use Rattle.std.specs.Prelude.{◌≡◌};
ghost use Rattle.state.specs.Settings.{defaults, trim_text, all_checks};

#[derive(Clone, Copy)]
pub struct Config {
    // A `&` without its `;` is text.
    pub allow_dangling_amp: bool,
    // A closing tag may close nothing.
    pub allow_unmatched_ends: bool,
    // A comment may not have `--` in it.
    pub check_comments: bool,
    // A closing tag has the name of the one that it closes.
    pub check_end_names: bool,
    // An empty element is a Start and an End.
    pub expand_empty_elements: bool,
    // White space after the name in a closing tag does not count.
    pub trim_markup_names_in_closing_tags: bool,
    // White space before text is skipped.
    pub trim_text_start: bool,
    // White space after text is not in its content.
    pub trim_text_end: bool,
    // A document may not end with names open.
    pub check_open_names: bool,
}

impl Config {
    // The settings of a reader to which none are given.
    pub fn default() -> Config
        ensures { result ≡ defaults }
    {
        Config {
            allow_dangling_amp: false,
            allow_unmatched_ends: false,
            check_comments: false,
            check_end_names: true,
            expand_empty_elements: false,
            trim_markup_names_in_closing_tags: true,
            trim_text_start: false,
            trim_text_end: false,
            check_open_names: false,
        }
    }

    // The same settings, with text trimmed at both ends or at neither.
    pub fn trim_text(self, trim: bool) -> Config
        ensures { result ≡ trim_text self trim }
    {
        Config {
            allow_dangling_amp: self.allow_dangling_amp,
            allow_unmatched_ends: self.allow_unmatched_ends,
            check_comments: self.check_comments,
            check_end_names: self.check_end_names,
            expand_empty_elements: self.expand_empty_elements,
            trim_markup_names_in_closing_tags: self.trim_markup_names_in_closing_tags,
            trim_text_start: trim,
            trim_text_end: trim,
            check_open_names: self.check_open_names,
        }
    }

    // The same settings, with comments and closing names checked or neither.
    pub fn enable_all_checks(self, enable: bool) -> Config
        ensures { result ≡ all_checks self enable }
    {
        Config {
            allow_dangling_amp: self.allow_dangling_amp,
            allow_unmatched_ends: self.allow_unmatched_ends,
            check_comments: enable,
            check_end_names: enable,
            expand_empty_elements: self.expand_empty_elements,
            trim_markup_names_in_closing_tags: self.trim_markup_names_in_closing_tags,
            trim_text_start: self.trim_text_start,
            trim_text_end: self.trim_text_end,
            check_open_names: self.check_open_names,
        }
    }
}
