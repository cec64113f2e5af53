//! Places on a lattice, and layouts of sites and fixed charges.
#![tactic(auto)]

mod dropping;
mod fault;
mod faults;
mod geometry;
mod lattice;
pub mod laws;
mod layout;
mod making;
mod site;

pub use fault::LayoutFault;
pub use geometry::{default_lattice, lattice_of, squared_distance, squared_distance_on};
pub use lattice::Lattice;
pub use layout::{Layout, without};
pub use making::{layout_of, layout_on, layout_with};
pub use site::{Fix, Site};

/// The greatest size of a place's column number and of its row number.
pub const MAX_PLACE: u64 = 5_000;

/// The greatest sum of the sizes of the steps along a row and from row to row, in either direction,
/// in hundredths of an ångström.
pub const MAX_STEPS: u64 = 800;

/// The greatest size of the offset of a second atom, in either direction, in hundredths of an
/// ångström.
pub const MAX_OFFSET: u64 = 400;

/// The least squared distance of two places of a layout, in squared hundredths of an ångström: that
/// of the two atoms of a dimer.
pub const LEAST_SQUARED_DISTANCE: u64 = 50_625;
