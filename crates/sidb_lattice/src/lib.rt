//! The classes of the squared distances of a layout, beside all calls on lattices and layouts.
#![tactic(auto)]

mod classes;
pub mod laws;
mod measuring;

pub use classes::Classes;
pub use measuring::classes_of;
pub use sidb_layout::{
    Fix, LEAST_SQUARED_DISTANCE, Lattice, Layout, LayoutFault, MAX_OFFSET, MAX_PLACE, MAX_STEPS,
    Site, default_lattice, lattice_of, laws as layout_laws, layout_of, layout_on, layout_with,
    squared_distance, squared_distance_on, without,
};
