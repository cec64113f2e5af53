//! Whether a charge list is possibly or certainly valid, fast: bounds on the potentials, which a
//! track has, decide most sites and hops, and only the others are summed class by class.
#![tactic(auto)]

mod bounds;
mod demand;
mod energies;
pub mod laws;
mod leaves;

pub use bounds::{BoundVerdict, hop_verdict, tests_verdict};
pub use demand::Demand;
pub use energies::{greatest_energy, least_energy};
pub use leaves::{hops_hold, is_certain, is_possible};
