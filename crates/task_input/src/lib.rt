//! What the input of a run means: its problem, and what is told of where that came from.
#![tactic(auto)]

mod input;
pub mod laws;
mod layouts;
mod read;

pub use ground_report::About;
pub use input::Input;
pub use read::read_input;
