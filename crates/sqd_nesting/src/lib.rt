//! The marks of a layout text, how they nest, and the first fault where they don't.
#![tactic(auto)]

mod ahead;
mod between;
pub mod laws;
mod nest;
mod read;
mod text_marks;

pub use read::PlacedMark;
pub use sqd_scan::SqdFault;
pub use text_marks::read_marks;
