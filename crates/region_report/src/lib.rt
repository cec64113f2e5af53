//! The reports of regions: tiles with what a gate does on the whole of each, and their areas.
#![tactic(auto)]

mod json;
mod lines;
mod numbers;

pub use json::region_json;
pub use lines::region_text;
