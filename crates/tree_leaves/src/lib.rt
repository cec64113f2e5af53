//! The possibly valid lists of the search tree under a threshold, and the laws of its node count.
#![tactic(auto)]

pub mod laws;
mod leaf_list;
mod listing;

pub use leaf_list::{LeafList, LeavesAnswer};
pub use listing::{leaves, leaves_under, track_of};
