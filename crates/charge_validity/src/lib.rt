//! Whether a charge list is possibly valid, and its mark by its own inequalities.
#![tactic(auto)]

pub mod laws;
mod marking;
mod validity;

pub use charge_model::{Deciding, Mark};
pub use marking::own_mark;
pub use validity::{has_table, is_hop, is_possible};
