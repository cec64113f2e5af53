//! The text of the printed parts of an interval of levels.
#![tactic(auto)]

mod entries;
mod parts;

pub use level_range::Parts;
pub use parts::range_text;
