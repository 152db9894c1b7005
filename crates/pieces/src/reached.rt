// Which scans feeding leads to.
ghost use Rattle.std.specs.Prelude.{◌≡◌};
ghost use Rattle.pieces.specs.Reached.{reached as reached_of, quotes_reached, marks_reached};

use crate::scan::{Kind, State};
use parser::element::ElementState;
use parser::marks::Marks;
use state::limits::LONGEST;

// Whether a scan that was fed `taken` bytes may be in this state.
pub fn reached(taken: usize, state: State) -> bool
    ensures { result ≡ reached_of taken state }
{
    if taken <= LONGEST {
        match state {
            State::Start => taken == 0,
            State::Opened => taken == 1,
            State::Bang => taken == 2,
            State::Tag(quotes) => quotes_reached(taken, quotes),
            State::Marked(kind, marks) => marks_reached(taken, kind, marks),
            State::Reference => 0 < taken,
            State::Text => true,
        }
    } else {
        false
    }
}

fn quotes_reached(taken: usize, quotes: ElementState) -> bool
    ensures { result ≡ quotes_reached taken quotes }
{
    match quotes {
        ElementState::Outside => true,
        ElementState::SingleQ => 0 < taken,
        ElementState::DoubleQ => 0 < taken,
    }
}

fn marks_reached(taken: usize, kind: Kind, marks: Marks) -> bool
    ensures { result ≡ marks_reached taken kind marks }
{
    let opener = kind.opener();
    if marks.left == 0 {
        if marks.seen <= kind.need() {
            opener + marks.seen <= taken
        } else {
            false
        }
    } else if marks.seen == 0 {
        if marks.left <= opener {
            taken == opener - marks.left
        } else {
            false
        }
    } else {
        false
    }
}
