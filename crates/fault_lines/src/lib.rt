//! The lines that a run prints where it refuses its words, its input, or the work asked for.
#![tactic(auto)]

mod certificate_faults;
mod input_fault;
mod layout_lines;
mod lines;
mod table_faults;

pub use certificate_faults::certificate_fault_line;
pub use input_fault::InputFault;
pub use lines::{budget_line, input_line, list_too_long_line, words_line};
