// The answer of a scan for the first byte of a kind.

// The byte's position, or that the bytes ended without one.
#[derive(Clone, Copy)]
pub enum Found {
    At(usize),
    End,
}
