//! Places and fixed charges make a layout, or are refused: one of the two always.
#![tactic(auto)]

pub mod laws;
