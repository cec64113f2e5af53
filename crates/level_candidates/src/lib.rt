//! The charge lists that are possibly valid at some level of an interval, each with the levels at
//! which it is possibly valid, those at which it is certainly valid, and its energy.
#![tactic(auto)]

mod answer;
mod candidate;
mod ends;
mod openness;
mod plan;
mod raises;
mod searcher;
mod searching;

pub use answer::CandidatesAnswer;
pub use candidate::{LevelCandidate, is_lower, is_never_above};
pub use ends::{Ends, includes, is_empty};
pub use level_range_laws::Interval;
pub use searching::candidates_in;
