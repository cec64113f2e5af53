//! A certainly valid charge list of low energy, found by a short search of its own: its greatest
//! energy is where the exact search may begin to cut.
#![tactic(auto)]

mod hunt;
pub mod laws;
mod search;

pub use search::certain_energy;
