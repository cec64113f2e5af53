//! Whether a site may keep its charge: its tests over all potential tables.
#![tactic(auto)]

mod rule;
mod verdict;

pub use rule::population;
pub use verdict::PopulationVerdict;
