//! Possibly valid charge lists with their energies: which of them no list beats by a
//! window, and their marks.
#![tactic(auto)]

mod bounds;
mod candidate;
mod ends;
mod found;
mod least;
mod marks;
mod rivals;

pub use candidate::{Candidate, candidate_of, candidate_within};
pub use found::{ground_list_of, window_list_of};
pub use ground_entries::{Deciding, Entry, GroundList, Mark};
