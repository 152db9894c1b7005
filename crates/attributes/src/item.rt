// What a call answers: an attribute, none, or a refusal with its place.
ghost use Rattle.std.specs.Prelude.{◌≡◌};
ghost use Rattle.attributes.specs.Answers.{fault_number, fault_quote, fault_first, refused as refused_of, attribute_values, refusal_values, values_of};

// From a place up to another.
#[derive(Clone, Copy)]
pub struct Extent {
    pub from: usize,
    pub to: usize,
}

#[derive(Clone, Copy)]
pub struct Attribute {
    pub name: Extent,
    // Without its quotes.
    pub value: Extent,
    // Where to go on: just after the closing quote.
    pub next: usize,
}

#[derive(Clone, Copy)]
pub enum Fault {
    // The name length is not that of the content, or reading from the name does not come to the place.
    BadState,
    // Something after a value with no white space between.
    NoSpace,
    EmptyName,
    NoEquals,
    NoOpeningQuote,
    // The quote that is not closed.
    NoClosingQuote(u8),
    LessThan,
    // Where the name was used first.
    NameUsed(usize),
}

#[derive(Clone, Copy)]
pub struct Refusal {
    pub fault: Fault,
    pub place: usize,
}

#[derive(Clone, Copy)]
pub enum Item {
    Attribute(Attribute),
    // Only white space is left.
    Nothing,
    Refused(Refusal),
}

// An answer as numbers. Of an attribute `found` is 1; of none and of a refusal it is 0, and so are the spans and `next`. `number` and `place` are those of
// the refusal, and 0 where there is none.
#[derive(Clone, Copy)]
pub struct Values {
    pub found: usize,
    pub name: Extent,
    pub value: Extent,
    pub next: usize,
    pub number: usize,
    pub place: usize,
    // Of 22 the quote that is not closed; 0 where none opens, and of every other answer.
    pub quote: usize,
    // Of 24 where the name was used first; 0 of every other answer.
    pub first: usize,
}

impl Fault {
    // The number of a refusal.
    pub fn number(self) -> usize
        ensures { result ≡ fault_number self }
    {
        match self {
            Fault::BadState => 17,
            Fault::NoSpace => 19,
            Fault::EmptyName => 20,
            Fault::NoEquals => 21,
            Fault::NoOpeningQuote => 22,
            Fault::NoClosingQuote(_) => 22,
            Fault::LessThan => 23,
            Fault::NameUsed(_) => 24,
        }
    }

    // The quote that is not closed; 0 for any other fault.
    fn quote(self) -> usize
        ensures { result ≡ fault_quote self }
    {
        match self {
            Fault::BadState => 0,
            Fault::NoSpace => 0,
            Fault::EmptyName => 0,
            Fault::NoEquals => 0,
            Fault::NoOpeningQuote => 0,
            Fault::NoClosingQuote(quote) => quote as usize,
            Fault::LessThan => 0,
            Fault::NameUsed(_) => 0,
        }
    }

    // Where the name was used first; 0 for any other fault.
    fn first(self) -> usize
        ensures { result ≡ fault_first self }
    {
        match self {
            Fault::BadState => 0,
            Fault::NoSpace => 0,
            Fault::EmptyName => 0,
            Fault::NoEquals => 0,
            Fault::NoOpeningQuote => 0,
            Fault::NoClosingQuote(_) => 0,
            Fault::LessThan => 0,
            Fault::NameUsed(first) => first,
        }
    }
}

impl Attribute {
    // The attribute as numbers.
    fn values(self) -> Values
        ensures { result ≡ attribute_values self }
    {
        let name = self.name;
        let value = self.value;
        Values {
            found: 1,
            name,
            value,
            next: self.next,
            number: 0,
            place: 0,
            quote: 0,
            first: 0,
        }
    }
}

impl Refusal {
    // The refusal as numbers.
    fn values(self) -> Values
        ensures { result ≡ refusal_values self }
    {
        let none = Extent { from: 0, to: 0 };
        let fault = self.fault;
        Values {
            found: 0,
            name: none,
            value: none,
            next: 0,
            number: fault.number(),
            place: self.place,
            quote: fault.quote(),
            first: fault.first(),
        }
    }
}

impl Item {
    // The answer as numbers.
    pub fn values(self) -> Values
        ensures { result ≡ values_of self }
    {
        let none = Extent { from: 0, to: 0 };
        match self {
            Item::Attribute(attribute) => attribute.values(),
            Item::Nothing => Values {
                found: 0,
                name: none,
                value: none,
                next: 0,
                number: 0,
                place: 0,
                quote: 0,
                first: 0,
            },
            Item::Refused(refusal) => refusal.values(),
        }
    }
}

// A refusal.
pub fn refused(fault: Fault, place: usize) -> Item
    ensures { result ≡ refused_of fault place }
{
    Item::Refused(Refusal { fault, place })
}
