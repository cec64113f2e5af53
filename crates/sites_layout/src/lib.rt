//! Layouts out of sites texts, line by line.
#![tactic(auto)]

mod clashes;
mod found;
pub mod laws;
mod line;
mod line_reader;
mod lines;
mod ranges;
mod read;
mod words;

pub use found::Found;
pub use read::read_sites;
pub use sqd_scan::SqdFault;
