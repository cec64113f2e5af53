use sidb_layout::{Fix, Site};

/// The two parts of a vector, in hundredths of an ångström.
#[derive(Clone, Copy, Debug, PartialEq, Eq)]
pub struct Vector {
    pub x: i64,
    pub y: i64,
}

/// The three vectors that a line gives for a lattice, in range or not: the step from column to
/// column, that from row to row, and the offset of a second atom.
#[derive(Clone, Copy, Debug, PartialEq, Eq)]
pub struct Vectors {
    pub column: Vector,
    pub row: Vector,
    pub atom: Vector,
}

/// A line of a sites text, with its numbers as they are written, in range or not.
#[derive(Clone, Copy, Debug, PartialEq, Eq)]
pub enum SitesLine {
    /// Nothing, or a comment.
    Empty,
    /// `N M L`: a site.
    Place(Site),
    /// `fix N M L Q`: a fixed charge.
    Charge(Fix),
    /// `lattice AX AY BX BY CX CY`
    Lattice(Vectors),
}
