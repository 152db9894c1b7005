// Where a scan stands between two parts of the bytes, and what a call tells.
ghost use Rattle.std.specs.Prelude.{◌≡◌};
ghost use Rattle.pieces.specs.Kinds.{opener_of, mark_of, need_of};
ghost use Rattle.pieces.specs.Fed.{told_number, begins as begins_of, fresh as fresh_of};

use parser::element::ElementState;
use parser::marks::Marks;
use state::answer::Error;

// What ends with marks just before its `>`.
#[derive(Clone, Copy)]
pub enum Kind {
    Pi,
    Comment,
    CData,
}

// What is scanned: a piece that its own bytes tell, a tag, what ends with marks, or text. Each but text from its first byte on.
#[derive(Clone, Copy)]
pub enum What {
    Piece,
    Tag,
    Marked(Kind),
    Text,
}

// What a scan is in.
#[derive(Clone, Copy)]
pub enum State {
    // Nothing has come: the first byte tells what the piece is.
    Start,
    // `<` has come: the next byte tells which markup it is.
    Opened,
    // `<!` has come: the next byte tells.
    Bang,
    Tag(ElementState),
    Marked(Kind, Marks),
    // Behind the `&`.
    Reference,
    Text,
}

// The place that was found, counted from the first byte that was fed; or how many bytes were fed, and what the scan is in.
#[derive(Clone, Copy)]
pub enum Scan {
    Closed(usize),
    Open { taken: usize, state: State },
}

// What a call tells: the place, that it is not found yet, or a refusal.
#[derive(Clone, Copy)]
pub enum Told {
    At(usize),
    Open,
    Refused(Error),
}

// What a call answers: where the scan stands after it, and what it tells.
#[derive(Clone, Copy)]
pub struct Fed {
    pub scan: Scan,
    pub told: Told,
}

impl Kind {
    // How many bytes of the opener count for nothing.
    pub fn opener(self) -> usize
        ensures { result ≡ opener_of self }
    {
        match self {
            Kind::Pi => 0,
            Kind::Comment => 4,
            Kind::CData => 0,
        }
    }

    // The byte that stands before the `>`.
    pub fn mark(self) -> u8
        ensures { result ≡ mark_of self }
    {
        match self {
            Kind::Pi => b'?',
            Kind::Comment => b'-',
            Kind::CData => b']',
        }
    }

    // How many of them.
    pub fn need(self) -> usize
        ensures { result ≡ need_of self }
    {
        match self {
            Kind::Pi => 1,
            Kind::Comment => 2,
            Kind::CData => 2,
        }
    }
}

impl Told {
    // The number of the refusal; 0 where there is none.
    pub fn number(self) -> usize
        ensures { result ≡ told_number self }
    {
        match self {
            Told::At(_) => 0,
            Told::Open => 0,
            Told::Refused(error) => {
                let numbered = error.numbered();
                numbered.number
            }
        }
    }
}

// A scan that nothing was fed to.
pub fn fresh(what: What) -> Scan
    ensures { result ≡ fresh_of what }
{
    Scan::Open {
        taken: 0,
        state: begins(what),
    }
}

// What it is in.
fn begins(what: What) -> State
    ensures { result ≡ begins_of what }
{
    match what {
        What::Piece => State::Start,
        What::Tag => State::Tag(ElementState::Outside),
        What::Marked(kind) => State::Marked(
            kind,
            Marks {
                left: kind.opener(),
                seen: 0,
            },
        ),
        What::Text => State::Text,
    }
}
