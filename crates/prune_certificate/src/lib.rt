//! Certificates as callers see them: entries with their marks, tokens and what takes them, and the
//! text with its readers and its printer; and that what is printed is read back.
#![tactic(auto)]

pub mod laws;
mod print;

pub use certificate_reading::{CertFront, CertText, feed, read_certificate, scan_certificate};
pub use ground_entries::{Deciding, Entry, GroundList, Mark, Solved, list_of};
pub use print::print_head;
pub use token_lines::{TokenText, print_token};
pub use token_sinks::{Certificate, Stop, Token, TokenSink, Tokens};
