// A scan as lent slots.
ghost use Rattle.std.specs.Prelude.{◌≡◌, [], ◌∷◌, ◌++◌, ◌≤◌, length, drop};
ghost use Rattle.capi_pieces.specs.Numbers.{scan_slots, quotes_number, kind_number, state_number, marks_in, numbers_of, plain_of, scan_of, held_of, begun_of};

use parser::element::ElementState;
use parser::marks::Marks;
use pieces::scan::{Kind, Scan, State, What, fresh};

// How many slots a scan takes.
pub const SCAN_SLOTS: usize = 4;

// The scan that slots hold.
#[derive(Clone, Copy)]
pub enum Held {
    Scan(Scan),
    Nothing,
}

fn quotes_number(quotes: ElementState) -> usize
    ensures { result ≡ quotes_number quotes }
{
    match quotes {
        ElementState::Outside => 4,
        ElementState::SingleQ => 5,
        ElementState::DoubleQ => 6,
    }
}

fn kind_number(kind: Kind) -> usize
    ensures { result ≡ kind_number kind }
{
    match kind {
        Kind::Pi => 7,
        Kind::Comment => 8,
        Kind::CData => 9,
    }
}

fn state_number(state: State) -> usize
    ensures { result ≡ state_number state }
{
    match state {
        State::Start => 1,
        State::Opened => 2,
        State::Bang => 3,
        State::Tag(quotes) => quotes_number(quotes),
        State::Marked(kind, _) => kind_number(kind),
        State::Reference => 10,
        State::Text => 11,
    }
}

// The marks of a state; none where it has none.
fn marks_in(state: State) -> Marks
    ensures { result ≡ marks_in state }
{
    let none = Marks { left: 0, seen: 0 };
    match state {
        State::Start => none,
        State::Opened => none,
        State::Bang => none,
        State::Tag(_) => none,
        State::Marked(_, marks) => marks,
        State::Reference => none,
        State::Text => none,
    }
}

// Writes a scan's numbers.
pub fn store(slots: &mut [usize], scan: Scan)
    requires { scan_slots ≤ length slots.old }
    ensures { slots.new ≡ numbers_of scan ++ drop scan_slots slots.old }
{
    match scan {
        Scan::Closed(place) => put(slots, 0, place, Marks { left: 0, seen: 0 }),
        Scan::Open { taken, state } => put(slots, state_number(state), taken, marks_in(state)),
    }
}

fn put(slots: &mut [usize], state: usize, count: usize, marks: Marks)
    requires { scan_slots ≤ length slots.old }
    ensures { slots.new ≡ (state ∷ count ∷ marks.left ∷ marks.seen ∷ []) ++ drop scan_slots slots.old }
{
    slots[0] = state;
    slots[1] = count;
    slots[2] = marks.left;
    slots[3] = marks.seen;
}

// The scan whose numbers the slots begin with.
pub fn load(slots: &[usize]) -> Held
    ensures { result ≡ held_of slots.now }
{
    if slots.len() < SCAN_SLOTS {
        return Held::Nothing;
    }
    let marks = Marks {
        left: slots[2],
        seen: slots[3],
    };
    scan_of(slots[0], slots[1], marks)
}

// The scan with these numbers.
fn scan_of(state: usize, count: usize, marks: Marks) -> Held
    ensures { result ≡ scan_of state count marks }
{
    match state {
        7 => still_open(count, State::Marked(Kind::Pi, marks)),
        8 => still_open(count, State::Marked(Kind::Comment, marks)),
        9 => still_open(count, State::Marked(Kind::CData, marks)),
        _ => {
            if marks.left == 0 {
                if marks.seen == 0 {
                    plain(state, count)
                } else {
                    Held::Nothing
                }
            } else {
                Held::Nothing
            }
        }
    }
}

// The same without marks.
fn plain(state: usize, count: usize) -> Held
    ensures { result ≡ plain_of state count }
{
    match state {
        0 => Held::Scan(Scan::Closed(count)),
        1 => still_open(count, State::Start),
        2 => still_open(count, State::Opened),
        3 => still_open(count, State::Bang),
        4 => still_open(count, State::Tag(ElementState::Outside)),
        5 => still_open(count, State::Tag(ElementState::SingleQ)),
        6 => still_open(count, State::Tag(ElementState::DoubleQ)),
        10 => still_open(count, State::Reference),
        11 => still_open(count, State::Text),
        _ => Held::Nothing,
    }
}

fn still_open(taken: usize, state: State) -> Held
    ensures { result ≡ Held.Scan (Scan.Open taken state) }
{
    Held::Scan(Scan::Open { taken, state })
}

// A fresh scan of what has this number.
pub fn begun(state: usize) -> Held
    ensures { result ≡ begun_of state }
{
    match state {
        1 => Held::Scan(fresh(What::Piece)),
        4 => Held::Scan(fresh(What::Tag)),
        7 => Held::Scan(fresh(What::Marked(Kind::Pi))),
        8 => Held::Scan(fresh(What::Marked(Kind::Comment))),
        9 => Held::Scan(fresh(What::Marked(Kind::CData))),
        11 => Held::Scan(fresh(What::Text)),
        _ => Held::Nothing,
    }
}
