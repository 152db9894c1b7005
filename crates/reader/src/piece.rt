// The pieces that a document is cut into.
use state::answer::Refusal;
use state::place::Span;
use state::run::Phase;

// What a piece is read as. `LastText` is text up to the document's end, `Dangling` a reference without its `;`.
#[derive(Clone, Copy)]
pub enum Shape {
    Text,
    LastText,
    GeneralRef,
    Dangling,
    Comment,
    CData,
    QuestionMark,
    End,
    Start,
}

// A piece, and the phase that comes after it.
#[derive(Clone, Copy)]
pub struct Piece {
    pub shape: Shape,
    pub span: Span,
    pub next: Phase,
}

// A piece, or the refusal where there is none.
#[derive(Clone, Copy)]
pub enum Cut {
    Piece(Piece),
    Stop(Refusal),
}

// What is due: a piece, from the place where it starts; the end of an empty element; or nothing more.
#[derive(Clone, Copy)]
pub enum Due {
    Piece(usize),
    EmptyEnd,
    Nothing,
}
