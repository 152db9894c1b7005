// All that is known of a piece from its bytes so far, and what one byte more does to it.
ghost use Rattle.std.specs.Prelude.{◌≡◌, ◌<◌};
ghost use Rattle.state.specs.Limits.{longest};
ghost use Rattle.plain.specs.Letters.{owing as owing_of, lead as lead_of, letter};
ghost use Rattle.plain.specs.Known.{next_part, goes as goes_of, opens as opens_of, next_quote, reach as reach_of, fresh as fresh_of, size_of, name_len as name_len_of, ends_of, tick_of};

use ground::byte_at;
use state::place::Span;
use white::is_whitespace;

// What a piece is, as far as its first bytes tell.
#[derive(Clone, Copy)]
pub enum Part {
    // None of its bytes was read.
    Nothing,
    Text,
    // From `&`.
    Reference,
    // `<`: the next byte tells.
    Opened,
    // `<!`: the next byte tells.
    Bang,
    // `<!-`
    Comment,
    // `<![`
    CData,
    // `<?`
    Instruction,
    // `</`
    Closing,
    // `<` and any other byte.
    Opening,
}

// The character at hand (RFC 3629, section 4).
#[derive(Clone, Copy)]
pub struct Letters {
    // How many bytes it owes; 0 between characters.
    pub owed: usize,
    // The least and the greatest byte that may come next. An ill-formed character owes one byte, from 1 to 0: no byte is that.
    pub low: u8,
    pub top: u8,
    // Where it began.
    pub at: usize,
}

#[derive(Clone, Copy)]
pub struct Known {
    pub part: Part,
    // Where the piece begins, and where its next byte would stand.
    pub from: usize,
    pub at: usize,
    // In the first call: all bytes of the document so far are those of a byte order mark.
    pub mark: bool,
    pub letters: Letters,
    // Behind the last byte that is not white space.
    pub kept: usize,
    // The first white space; `at` where there is none so far.
    pub name: usize,
    // In a tag the quote that is open, or 0.
    pub quote: u8,
    // The byte just before, and the one before that.
    pub last: u8,
    pub before: u8,
    // The opener `<!--`, `<![CDATA[` or `<?xml` is right as far as the piece goes, and a byte behind `<?xml` is white space or `?`. In other pieces it is on.
    pub right: bool,
    // The second of the first two hyphens in a row behind `<!--`; `at` where there are none so far.
    pub pair: usize,
    // The first byte behind `</` that is not the one of the open name; `at` where there is none so far.
    pub differs: usize,
}

// A character that began at `at` and owes so many bytes, the next of them from `low` to `top`.
fn owing(at: usize, owed: usize, low: u8, top: u8) -> Letters
    ensures { result ≡ owing_of at owed low top }
{
    Letters { owed, low, top, at }
}

// What the first byte of a character says, which stands at `at`.
fn lead(at: usize, b: u8) -> Letters
    ensures { result ≡ lead_of at b }
{
    match b {
        0x00..=0x7F => owing(at, 0, 0x80, 0xBF),
        0xC2..=0xDF => owing(at, 1, 0x80, 0xBF),
        0xE0 => owing(at, 2, 0xA0, 0xBF),
        0xE1..=0xEC => owing(at, 2, 0x80, 0xBF),
        0xED => owing(at, 2, 0x80, 0x9F),
        0xEE..=0xEF => owing(at, 2, 0x80, 0xBF),
        0xF0 => owing(at, 3, 0x90, 0xBF),
        0xF1..=0xF3 => owing(at, 3, 0x80, 0xBF),
        0xF4 => owing(at, 3, 0x80, 0x8F),
        _ => owing(at, 1, 1, 0),
    }
}

impl Letters {
    // With one byte more, which stands at `at`.
    fn tick(self, at: usize, b: u8) -> Letters
        ensures { result ≡ letter self at b }
    {
        if self.owed == 0 {
            lead(at, b)
        } else if (self.low <= b) & (b <= self.top) {
            owing(self.at, self.owed - 1, 0x80, 0xBF)
        } else {
            owing(self.at, 1, 1, 0)
        }
    }
}

impl Part {
    // What the piece is with this byte. (Behind `<!` only `[` and `-` come here: at any other byte the piece ends.)
    fn next(self, b: u8) -> Part
        ensures { result ≡ next_part self b }
    {
        match self {
            Part::Nothing => match b {
                b'<' => Part::Opened,
                b'&' => Part::Reference,
                _ => Part::Text,
            },
            Part::Opened => match b {
                b'!' => Part::Bang,
                b'?' => Part::Instruction,
                b'/' => Part::Closing,
                _ => Part::Opening,
            },
            Part::Bang => {
                if b == b'[' {
                    Part::CData
                } else {
                    Part::Comment
                }
            }
            _ => self,
        }
    }

    // Whether a byte may stand at this place of the piece, by its opener.
    fn opens(self, offset: usize, b: u8) -> bool
        ensures { result ≡ opens_of self offset b }
    {
        match self {
            Part::Comment => goes(b"<!--", offset, b),
            Part::CData => goes(b"<![CDATA[", offset, b),
            Part::Instruction => goes(b"<?xml", offset, b)
                & ((offset != 5) | is_whitespace(b) | (b == b'?')),
            _ => true,
        }
    }
}

// Whether a byte may stand at this place of a piece that begins with the word: any byte may behind it.
fn goes(word: &[u8], offset: usize, b: u8) -> bool
    ensures { result ≡ goes_of word.now offset b }
{
    (word.len() <= offset) | (byte_at(word, offset) == b)
}

// The quote that is open behind this byte.
fn next_quote(quote: u8, b: u8) -> u8
    ensures { result ≡ next_quote quote b }
{
    if quote == 0 {
        if (b == b'\'') | (b == b'"') { b } else { 0 }
    } else if b == quote {
        0
    } else {
        quote
    }
}

// The first place where something is so, or how far was read: with the byte at `at`, where it is so or not.
fn reach(first: usize, at: usize, so: bool) -> usize
    requires { at < longest }
    ensures { result ≡ reach_of first at so }
{
    if (first == at) & !so { at + 1 } else { first }
}

impl Known {
    // A piece that may begin at `at`, of which no byte was read.
    pub fn fresh(at: usize, mark: bool) -> Known
        ensures { result ≡ fresh_of at mark }
    {
        Known {
            part: Part::Nothing,
            from: at,
            at,
            mark,
            letters: owing(at, 0, 0x80, 0xBF),
            kept: at,
            name: at,
            quote: 0,
            last: 0,
            before: 0,
            right: true,
            pair: at,
            differs: at,
        }
    }

    // How many bytes of the piece were read.
    pub fn size(self) -> usize
        ensures { result ≡ size_of self }
    {
        let from = self.from;
        let to = self.at;
        Span { from, to }.size()
    }

    // How many bytes of the content are the name: those before the first white space. No byte of an opener is white space, so the piece's first is the content's.
    pub fn name_len(self, content: Span) -> usize
        ensures { result ≡ name_len_of self content }
    {
        let to = if self.name < content.to {
            self.name
        } else {
            content.to
        };
        let from = content.from;
        Span { from, to }.size()
    }

    // Whether the piece ends at this byte: with it, or before it; or is refused there (`<!` and neither `[` nor `-`).
    pub fn ends(self, b: u8) -> bool
        ensures { result ≡ ends_of self b }
    {
        let part = self.part;
        match part {
            Part::Nothing => false,
            Part::Text => (b == b'<') | (b == b'&'),
            Part::Reference => (b == b';') | (b == b'&') | (b == b'<'),
            Part::Opened => b == b'>',
            Part::Bang => (b != b'[') & (b != b'-'),
            Part::Comment => (b == b'>')
                & (self.last == b'-')
                & (self.before == b'-')
                & (6 <= self.size()),
            Part::CData => (b == b'>') & (self.last == b']') & (self.before == b']'),
            Part::Instruction => (b == b'>') & (self.last == b'?'),
            Part::Closing => (b == b'>') & (self.quote == 0),
            Part::Opening => (b == b'>') & (self.quote == 0),
        }
    }

    // What is known with one byte more, where the piece does not end there. `trim` says that white space before text is skipped, `same` that the byte is the one
    // of the open name, as far as that is asked.
    pub fn tick(self, b: u8, trim: bool, same: bool) -> Known
        requires { self.at < longest }
        ensures { result ≡ tick_of self b trim same }
    {
        let part = self.part;
        let letters = self.letters;
        let at = self.at;
        let size = self.size();
        let white = is_whitespace(b);
        let mark = self.mark & (byte_at(b"\xEF\xBB\xBF", at) == b);
        if (mark & (at == 2)) | ((size == 0) & trim & white) {
            return Known::fresh(at + 1, false);
        }
        let two = (b == b'-') & (self.last == b'-') & (4 < size);
        Known {
            part: part.next(b),
            from: self.from,
            at: at + 1,
            mark,
            letters: letters.tick(at, b),
            kept: if white { self.kept } else { at + 1 },
            name: reach(self.name, at, white),
            quote: next_quote(self.quote, b),
            last: b,
            before: self.last,
            right: self.right & part.opens(size, b),
            pair: reach(self.pair, at, two),
            differs: reach(self.differs, at, !same),
        }
    }
}
