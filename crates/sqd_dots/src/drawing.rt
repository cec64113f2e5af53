use sidb_layout::Site;

/// A dot of a drawing.
#[derive(Clone, Copy, Debug, PartialEq, Eq)]
pub struct Dot {
    /// The byte of its `<`, counted from 0.
    pub at: usize,
    /// The three numbers of its lattice coordinates, in range or not.
    pub site: Site,
}

/// What a text draws.
#[derive(Drop)]
pub struct Drawing {
    /// The dots, in the order of their `<`.
    pub dots: Vec<Dot>,
    /// How many children of design layers are no dot and hold none.
    pub skipped: u64,
}
