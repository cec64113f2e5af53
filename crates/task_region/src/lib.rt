//! The task that asks whether a gate computes its function at every point of whole rectangles.
#![tactic(auto)]

mod answer;
mod asked;
pub mod laws;

pub use asked::region_answer;
