//! Layouts out of files of SiQAD.
#![tactic(auto)]

pub mod laws;
mod sqd;

pub use sites_layout::Found;
pub use sqd::read_sqd;
pub use sqd_dots::SqdFault;
