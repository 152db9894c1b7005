// The order of the times.
ghost use Rattle.std.specs.Prelude.{◌≡◌};
ghost use Rattle.columns.specs.Order.{order_of, lower_number};

#[derive(Clone, Copy)]
pub enum Order {
    // No time is lower than the one before it.
    Kept,
    // This is the first index, from 0, whose time is lower than the one before it.
    LowerAt(usize),
}

impl Order {
    // The index; 0, which has none before it, where the order is kept.
    pub fn number(self) -> usize
        ensures { result ≡ lower_number self }
    {
        match self {
            Order::Kept => 0,
            Order::LowerAt(i) => i,
        }
    }
}

// The order of times.
pub fn order_of(times: &[usize]) -> Order
    ensures { result ≡ order_of times.now }
{
    let mut i = 1;
    while i < times.len() {
        if times[i] < times[i - 1] {
            return Order::LowerAt(i);
        }
        i += 1;
    }
    Order::Kept
}
