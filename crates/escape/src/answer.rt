// What a call answers: how many bytes it wrote, or a refusal with its place.
ghost use Rattle.std.specs.Prelude.{◌≡◌};
ghost use Rattle.escape.specs.Answers.{fault_number, refused as refused_of, refusal_values, values_of};

#[derive(Clone, Copy)]
pub enum Fault {
    // Neither a character reference nor one of the five names.
    NotOfForm,
    // The number is that of no XML character.
    NoCharacter,
    // The bytes do not fit, or the place is past the buffer's end.
    NoRoom,
}

#[derive(Clone, Copy)]
pub struct Refusal {
    pub fault: Fault,
    // Counted in the content: the `&`, or the byte that does not fit. Of one reference it is 0.
    pub place: usize,
}

#[derive(Clone, Copy)]
pub enum Written {
    // So many bytes, from the place that was given on.
    Bytes(usize),
    // Nothing was written.
    Refused(Refusal),
}

// An answer as numbers. Of bytes `number` and `place` are 0; of a refusal `count` is 0.
#[derive(Clone, Copy)]
pub struct Values {
    pub count: usize,
    pub number: usize,
    pub place: usize,
}

impl Fault {
    pub fn number(self) -> usize
        ensures { result ≡ fault_number self }
    {
        match self {
            Fault::NotOfForm => 25,
            Fault::NoCharacter => 26,
            Fault::NoRoom => 27,
        }
    }
}

impl Refusal {
    pub fn values(self) -> Values
        ensures { result ≡ refusal_values self }
    {
        let fault = self.fault;
        Values {
            count: 0,
            number: fault.number(),
            place: self.place,
        }
    }
}

impl Written {
    pub fn values(self) -> Values
        ensures { result ≡ values_of self }
    {
        match self {
            Written::Bytes(count) => Values {
                count,
                number: 0,
                place: 0,
            },
            Written::Refused(refusal) => refusal.values(),
        }
    }
}

pub fn refused(fault: Fault, place: usize) -> Written
    ensures { result ≡ refused_of fault place }
{
    Written::Refused(Refusal { fault, place })
}
