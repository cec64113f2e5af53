//! Problems: sites, levels, fixed charges, the class of each pair, and the span of each class.
#![tactic(auto)]

mod levels;
mod problem;

pub use charge_model::{Span, span_between};
pub use levels::Levels;
pub use problem::{Problem, problem_of, problem_with};
