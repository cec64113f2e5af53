//! The parameters that potentials and levels depend on: their units, ranges and preset values.
#![tactic(auto)]

pub mod laws;
mod params;
mod quantity;

pub use params::{Params, params_of};
pub use quantity::{
    COULOMB_NUMBER, LEVEL_DEPTH, LEVEL_GAP, PERMITTIVITY, Quantity, SCREENING_LENGTH,
};
