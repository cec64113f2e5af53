/// What a gate does at a point: it works, or the first pattern that does not, and why.
#[derive(Clone, Copy, PartialEq, Eq, Debug)]
pub enum CellAnswer {
    Works,
    Fails(u64),
    Undecided(u64),
    /// The search of this pattern needs more nodes than the limit.
    Budget(u64),
    /// The ground list of this pattern has more than 4,096 entries.
    Long(u64),
}

/// A point, by its permittivity in 10^-4 and its screening length in 10^-4 nm, and its answer.
#[derive(Clone, Copy, PartialEq, Eq, Debug)]
pub struct Cell {
    pub eps: i64,
    pub lam: i64,
    pub answer: CellAnswer,
}
