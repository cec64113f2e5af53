//! Texts of lines of words, and the whole numbers in them.
#![tactic(auto)]

pub mod laws;
mod read;
mod write;

pub use read::{cut, number_of, words_in};
pub use write::{push_bytes, push_number};
