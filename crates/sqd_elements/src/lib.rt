//! The elements of a layout text, the sites that their tags give, and what has to be kept of those
//! inside another.
#![tactic(auto)]

mod kept;
pub mod laws;
mod mark;
mod number;

pub use kept::{Inside, Latcoords, Sort};
pub use mark::sort_of;
pub use number::number_of;
