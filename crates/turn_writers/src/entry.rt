/// What a seat wrote.
#[derive(Clone, Copy, Debug, PartialEq, Eq)]
pub struct Entry {
    /// The number of the seat.
    pub by: u64,
    /// How many entries the seat had written before.
    pub step: u64,
}
