// Places in the document and depths of the stack of names. A place is no depth, and the types keep the two apart.
ghost use Rattle.std.specs.Prelude.{◌≡◌, ◌-◌};
ghost use Rattle.state.specs.Place.{inner as inner_of, size as size_of, fewer as fewer_of};

// A byte's place in the document, counted from its first byte.
#[derive(Clone, Copy)]
pub struct Position(pub usize);

// A count of open names.
#[derive(Clone, Copy)]
pub struct Depth(pub usize);

// The bytes from `from` up to `to`.
#[derive(Clone, Copy)]
pub struct Span {
    pub from: usize,
    pub to: usize,
}

impl Depth {
    // One name fewer, where there is one.
    pub fn fewer(self) -> Depth
        ensures { result ≡ fewer_of self }
    {
        if self.0 == 0 {
            Depth(0)
        } else {
            Depth(self.0 - 1)
        }
    }
}

impl Span {
    // How many bytes.
    pub fn size(self) -> usize
        ensures { result ≡ size_of self }
    {
        if self.from < self.to {
            self.to - self.from
        } else {
            0
        }
    }

    // What lies between its first `front` bytes and its last `back` ones; the empty span at its start where it has fewer bytes than that.
    pub fn inner(self, front: usize, back: usize) -> Span
        ensures { result ≡ inner_of self front back }
    {
        let none = Span {
            from: self.from,
            to: self.from,
        };
        if self.to < self.from {
            return none;
        }
        let size = self.to - self.from;
        if size < front {
            return none;
        }
        if size - front < back {
            return none;
        }
        Span {
            from: self.from + front,
            to: self.to - back,
        }
    }
}
