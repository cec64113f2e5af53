//! The screened Coulomb potential of a distance, enclosed in a span, and the problem of a layout.
#![tactic(auto)]

pub mod laws;
mod layouts;
mod potential;
mod rounding;

pub use fixed_enclosure::Span;
pub use layouts::problem;
pub use model_params::{Params, params_of};
pub use potential::span_of;
