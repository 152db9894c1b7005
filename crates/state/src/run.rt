// The reader's state, and the makers: no other code of the libraries writes a reader's fields.
ghost use Rattle.std.specs.Prelude.{◌≡◌, length};
ghost use Rattle.state.specs.Make.{made, moved as moved_of, with_depth, marked as marked_of, told, ended, refuses_end, ending, stopped, refused, bad_state};

use crate::answer::{Answer, Error, Event, Kind, Refusal};
use crate::config::Config;
use crate::limits::LONGEST;
use crate::place::{Depth, Position, Span};

// What the next bytes are read as.
#[derive(Clone, Copy)]
pub enum Phase {
    Init,
    InsideText,
    InsideMarkup,
    InsideRef,
    InsideEmpty,
    Done,
}

#[derive(Clone, Copy)]
pub struct Reader {
    pub phase: Phase,
    pub position: Position,
    // How many names are open.
    pub depth: Depth,
    // How many bytes the document has.
    pub length: usize,
    pub settings: Config,
    // Whether the run's end was told: by Eof, by the refusal of it, or by one that ended the run.
    pub mark: bool,
}

// What a call answers, and the reader after it.
#[derive(Clone, Copy)]
pub struct Step {
    pub reader: Reader,
    pub answer: Answer,
}

// A reader, or why there is none.
#[derive(Clone, Copy)]
pub enum Made {
    Fresh(Reader),
    Refused(Refusal),
}

impl Reader {
    // A reader at the start of a document. A document that is too long is refused.
    pub fn new(document: &[u8], settings: Config) -> Made
        ensures { result ≡ made (length document.now) settings }
    {
        let length = document.len();
        if LONGEST < length {
            return Made::Refused(Refusal {
                error: Error::SliceTooLong,
                place: Position(0),
                piece: Span { from: 0, to: 0 },
            });
        }
        Made::Fresh(Reader {
            phase: Phase::Init,
            position: Position(0),
            depth: Depth(0),
            length,
            settings,
            mark: false,
        })
    }

    // The reader in another phase at another place.
    fn moved(self, phase: Phase, at: usize) -> Reader
        ensures { result ≡ moved_of self phase at }
    {
        let depth = self.depth;
        let settings = self.settings;
        Reader {
            phase,
            position: Position(at),
            depth,
            length: self.length,
            settings,
            mark: self.mark,
        }
    }

    // The reader with another count of open names.
    pub fn with_depth(self, depth: Depth) -> Reader
        ensures { result ≡ with_depth self depth }
    {
        let phase = self.phase;
        let position = self.position;
        let settings = self.settings;
        Reader {
            phase,
            position,
            depth,
            length: self.length,
            settings,
            mark: self.mark,
        }
    }

    // The reader with its mark on.
    fn marked(self) -> Reader
        ensures { result ≡ marked_of self }
    {
        let phase = self.phase;
        let position = self.position;
        let depth = self.depth;
        let settings = self.settings;
        Reader {
            phase,
            position,
            depth,
            length: self.length,
            settings,
            mark: true,
        }
    }

    // An event. The reader goes on after its piece.
    pub fn event(self, event: Event, next: Phase) -> Step
        ensures { result ≡ told self event next }
    {
        let reader = self.moved(next, event.piece.to);
        Step {
            reader,
            answer: Answer::Event(event),
        }
    }

    // End of file, or the refusal of it. `last` is the latest open name.
    pub fn end(self, last: Span, piece: Span) -> Step
        ensures { result ≡ ending self last piece }
    {
        if self.refuses_end() {
            self.stop(Error::UnclosedElements, Position(last.from), piece)
        } else {
            self.eof(piece)
        }
    }

    // Whether end of file is refused where it is due: names are open, that is checked, and the end was not told before.
    fn refuses_end(self) -> bool
        ensures { result ≡ refuses_end self }
    {
        let settings = self.settings;
        if 0 < self.depth.0 {
            if settings.check_open_names {
                !self.mark
            } else {
                false
            }
        } else {
            false
        }
    }

    // End of file. The content is empty at the piece's start.
    fn eof(self, piece: Span) -> Step
        ensures { result ≡ ended self piece }
    {
        let content = Span {
            from: piece.from,
            to: piece.from,
        };
        let event = Event {
            kind: Kind::Eof,
            piece,
            content,
            name: 0,
        };
        let ended = self.marked();
        ended.event(event, Phase::Done)
    }

    // A refusal that ends the run, or that of its end.
    pub fn stop(self, error: Error, place: Position, piece: Span) -> Step
        ensures { result ≡ stopped self error place piece }
    {
        let stopped = self.marked();
        stopped.refuse(error, place, piece, Phase::Done)
    }

    // A refusal, and the phase that comes next.
    pub fn refuse(self, error: Error, place: Position, piece: Span, next: Phase) -> Step
        ensures { result ≡ refused self error place piece next }
    {
        let reader = self.moved(next, piece.to);
        Step {
            reader,
            answer: Answer::Refused(Refusal {
                error,
                place,
                piece,
            }),
        }
    }

    // The refusal of a state that no run has. Nothing changes.
    pub fn bad(self) -> Step
        ensures { result ≡ bad_state self }
    {
        Step {
            reader: self,
            answer: Answer::Refused(Refusal {
                error: Error::BadState,
                place: Position(0),
                piece: Span { from: 0, to: 0 },
            }),
        }
    }
}
