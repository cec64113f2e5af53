//! The ground list of a problem out of that of a problem with wider spans, without a search.
#![tactic(auto)]

mod narrower;
mod possible;
mod solved;
mod taking;

pub use ground_entries::GroundList;
pub use narrower::is_narrower;
pub use solved::{SolvedProblem, solved_problem_of};
pub use taking::list_out_of;
