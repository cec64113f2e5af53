//! Whether a gate computes its function on whole rectangles of permittivities and screening lengths.
#![tactic(auto)]

mod answers;
mod grid;
pub mod laws;
mod meaning;
mod patterns;

pub use answers::tile_answer;
pub use grid::region;
pub use meaning::GateMeaning;
