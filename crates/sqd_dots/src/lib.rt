//! The dots that a layout text draws, and how many other items stand beside them.
#![tactic(auto)]

mod drawing;
pub mod laws;
mod levels;
mod read;
mod reader;
mod tally;

pub use drawing::{Dot, Drawing};
pub use read::read_drawing;
pub use sqd_nesting::SqdFault;
