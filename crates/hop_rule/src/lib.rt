//! Whether a hop may lower the energy: its slack over all potential tables.
#![tactic(auto)]

mod rule;
mod verdict;

pub use rule::hop;
pub use verdict::HopVerdict;
