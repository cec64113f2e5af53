//! The lines of entries: the charges and the mark of each, as words.
#![tactic(auto)]

mod entry;
pub mod laws;

pub use entry::{entry_line, test_word};
