//! The marks of a layout text in the manner of SiQAD: what they are, and the parts of one.
#![tactic(auto)]

mod bytes;
mod kind;
pub mod laws;
mod span;
mod tag;
mod tag_value;

pub use bytes::{begins_name, is_blank, is_in_name};
pub use kind::Kind;
pub use tag::{end_name, tag_name};
pub use tag_value::attribute;
