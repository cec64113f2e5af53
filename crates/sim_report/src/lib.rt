//! The texts that a run prints.
#![tactic(auto)]

pub mod laws;
mod layout;
mod lists;
mod report;
mod rows;
mod shares;

pub use ground_report::About;
pub use lists::plain_lines;
pub use report::{ground_text, window_text};
pub use shares::occupation_text;
pub use sim_report_json::ground_json;
