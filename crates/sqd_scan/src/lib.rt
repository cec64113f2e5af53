//! The mark that bytes begin with, or why there is none.
#![tactic(auto)]

mod fault;
pub mod laws;
mod mark_scan;
mod stage;

pub use fault::SqdFault;
pub use mark_scan::{Whole, scan};
