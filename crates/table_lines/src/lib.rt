//! The lines of table texts: their words, their order, and the first row that is at fault.
#![tactic(auto)]

mod fault;
mod front;
pub mod laws;
mod line;
mod line_reader;
mod note;
mod order;
mod range;
mod seen;

pub use fault::{LineWhy, TableFault};
pub use front::{Front, MAX_FIRST_LINE, read_front};
pub use line::TableLine;
pub use seen::Seen;
