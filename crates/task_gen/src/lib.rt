//! The task that solves a layout which a number generates, and prints a summary.
#![tactic(auto)]

mod answer;
mod generator;
pub mod laws;
mod layout;

pub use answer::gen_answer;
pub use generator::generated_sites;
pub use layout::{generated_layout, generated_problem};
