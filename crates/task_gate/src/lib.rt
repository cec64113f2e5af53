//! The tasks that ask whether a gate computes its function: by given parameters, and over a grid.
#![tactic(auto)]

mod asked;
mod domain;
pub mod laws;
mod sites;
mod truth;

pub use asked::{domain_answer, given_gate, truth_answer};
pub use sites::gate_site;
