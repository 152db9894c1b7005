// What an answer tells of the column, and what that does to it.
ghost use Rattle.std.specs.Prelude.{◌≡◌, ◌*◌, ◌≤◌, length};
ghost use Rattle.state.specs.Limits.{slots};
ghost use Rattle.demands.specs.Answers.{is_eof};
ghost use Rattle.demands.specs.Open.{entries};
ghost use Rattle.columns.specs.Told.{text_tells, tells as tells_of};
ghost use Rattle.columns.specs.Inside.{filled_by, slots_by};

use crate::names::within;
use crate::outcome::Outcome;
use crate::text::{Text, read_time};
use reader::content;
use state::answer::{Answer, Kind};
use state::place::{Depth, Span};

// What an answer tells.
#[derive(Clone, Copy)]
pub enum Told {
    Nothing,
    // A time, in this piece.
    Time { value: usize, piece: Span },
    // What refuses the rest of the document.
    Refused(Outcome),
}

// How many times are filled in, and what refuses the rest.
#[derive(Clone, Copy)]
pub struct Filled {
    pub count: usize,
    pub outcome: Outcome,
}

// Whether an answer is end of file.
pub fn is_eof(answer: Answer) -> bool
    ensures { result ≡ is_eof answer }
{
    let values = answer.values();
    let eof = Kind::Eof;
    values.kind == eof.number()
}

// What an answer tells, with `depth` names open: text and references tell something where the latest of these is `t`, and so does every refusal.
pub fn tells(document: &[u8], stack: &[usize], depth: Depth, answer: Answer) -> Told
    requires { depth.0 * slots ≤ length stack.now }
    ensures { result ≡ tells_of document.now (entries stack.now depth.0) answer }
{
    match answer {
        Answer::Refused(refusal) => Told::Refused(Outcome::ReaderRefused(refusal)),
        Answer::Event(event) => {
            let kind = event.kind;
            let number = kind.number();
            let piece = event.piece;
            let span = event.content;
            let text = Kind::Text;
            if number == text.number() {
                if within(document, stack, depth) {
                    return text_tells(content(document, span), piece);
                }
                return Told::Nothing;
            }
            let reference = Kind::GeneralRef;
            if number == reference.number() {
                if within(document, stack, depth) {
                    return Told::Refused(Outcome::BadTime(piece));
                }
            }
            Told::Nothing
        }
    }
}

// What the text of a piece tells.
fn text_tells(text: &[u8], piece: Span) -> Told
    ensures { result ≡ text_tells text.now piece }
{
    match read_time(text) {
        Text::Empty => Told::Nothing,
        Text::Time(value) => Told::Time { value, piece },
        Text::Other => Told::Refused(Outcome::BadTime(piece)),
    }
}

// Fills in what is told, behind `count` times.
pub fn fill(column: &mut [usize], count: usize, told: Told) -> Filled
    ensures { (result ≡ filled_by (length column.old) count told) × (column.new ≡ slots_by column.old count told) }
{
    match told {
        Told::Nothing => Filled {
            count,
            outcome: Outcome::Whole,
        },
        Told::Refused(outcome) => Filled { count, outcome },
        Told::Time { value, piece } => {
            if column.len() <= count {
                return Filled {
                    count,
                    outcome: Outcome::ColumnFull(piece),
                };
            }
            column[count] = value;
            Filled {
                count: count + 1,
                outcome: Outcome::Whole,
            }
        }
    }
}
