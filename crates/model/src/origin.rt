// Where a read gets its value. Stays an enum, though it has the shape of Option: None would say memory nowhere, neither here nor in the rules (`Sees`).
#[derive(Clone, Copy)]
pub enum Origin {
    Memory,
    // The own waiting write at this position, counted from the oldest, from 0.
    Waiting(usize),
}
