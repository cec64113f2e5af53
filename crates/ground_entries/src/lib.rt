//! Entries with their marks, and the ground list as it is handed on.
#![tactic(auto)]

mod ground_list;

pub use charge_model::{Deciding, Mark, Span, Test, span_between};
pub use ground_list::{Entry, GroundList, Solved, list_of};
