//! Whole rectangles of permittivities and screening lengths: one problem for all their points.
#![tactic(auto)]

pub mod laws;
mod rectangles;
mod regions;

pub use model_params::Params;
pub use rectangles::{Rectangle, are_corners, rectangle_between};
pub use regions::region_problem;
