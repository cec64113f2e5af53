//! Table texts: the readers of the crate below, and the printer.
#![tactic(auto)]

pub mod laws;
mod lines;
mod print;

pub use print::print_table;
pub use table_reading::{
    Levels, LineWhy, MAX_FIRST_LINE, Problem, Span, TableFault, TableFront, TableLine, problem_of,
    problem_with, read_table, read_table_front, span_between,
};
