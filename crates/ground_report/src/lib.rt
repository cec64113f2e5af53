//! What a report of a ground list is about: a layout, and the energies of entries.
#![tactic(auto)]

mod about;
mod energies;
pub mod laws;

pub use about::{About, is_silicon};
pub use energies::energy_spans;
