//! The possibly valid lists of the search tree under a threshold, found side by side.
#![tactic(auto)]

mod joining;
mod sharing;

pub use joining::leaves_shared;
pub use sharing::{Share, share_out};

/// The greatest number of charges of a prefix that is one part of the work.
pub const MAX_DEPTH: usize = 5;
