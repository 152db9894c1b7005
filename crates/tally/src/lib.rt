// What a whole document opens and closes: a library above the reader, proved from the reader's promises alone.
#![tactic(auto)]

ghost use Rattle.std.specs.Prelude.{◌≡◌, eqb};
ghost use Rattle.ground.specs.Choose.{pick};
ghost use Rattle.tally.specs.Tally.{Summed};

use reader::advance;
use state::answer::{Kind, Refusal};
use state::config::Config;
use state::place::Depth;
use state::run::{Made, Reader};

// What the calls answered, and what they left open.
#[derive(Clone, Copy)]
pub struct Counts {
    // Starts.
    pub openings: usize,
    // Ends.
    pub closings: usize,
    // Refusals of a closing tag that has another name than the one open.
    pub mismatches: usize,
    // How many names are open after the last call.
    pub depth: Depth,
}

// The counts, or why there is no reader.
#[derive(Clone, Copy)]
pub enum Tallied {
    Counted(Counts),
    Refused(Refusal),
}

// The number of the refusal that is a mismatch.
const MISMATCH: usize = 10;

// 1 where two numbers are the same, 0 where they are not.
fn one(a: usize, b: usize) -> usize
    ensures { result ≡ pick (eqb a b) 1 0 }
{
    if a == b { 1 } else { 0 }
}

// Makes as many calls as the document has bytes and two more: end of file comes with the last of them or before. The stack is lent to each.
pub fn tally(document: &[u8], stack: &mut [usize], settings: Config) -> Tallied
    ensures { Summed document.now stack.old settings result stack.new }
{
    match Reader::new(document, settings) {
        Made::Refused(refusal) => Tallied::Refused(refusal),
        Made::Fresh(fresh) => {
            let start = Kind::Start.number();
            let end = Kind::End.number();
            let mut reader = fresh;
            let mut openings = 0;
            let mut closings = 0;
            let mut mismatches = 0;
            let mut i = 0;
            let calls = document.len() + 2;
            while i < calls {
                i += 1;
                let step = advance(reader, document, stack);
                reader = step.reader;
                let answer = step.answer;
                let values = answer.values();
                openings += one(values.kind, start);
                closings += one(values.kind, end);
                mismatches += one(values.number, MISMATCH);
            }
            let depth = reader.depth;
            Tallied::Counted(Counts {
                openings,
                closings,
                mismatches,
                depth,
            })
        }
    }
}
