//! The ground list of a problem with its marks, or all within an energy of the ground, by the
//! pruned search.
#![tactic(auto)]

mod effort;
mod keeping;
pub mod laws;
mod reach;
mod solving;

pub use ground_entries::{Deciding, Entry, GroundList, Mark, Solved};
pub use solving::{SolveAnswer, solve, solve_within};
