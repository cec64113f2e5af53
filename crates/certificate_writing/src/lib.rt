//! Writes the certificate of a problem's ground list to a sink of bytes: its head, its tokens as
//! the walk finds them, and the line `end`.
#![tactic(auto)]

pub mod laws;
mod write;

pub use token_sinks::Stop;
pub use write::write_certificate;
