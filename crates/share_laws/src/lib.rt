//! That the intervals of the shares of a list hold the whole under each table.
#![tactic(auto)]

pub mod laws;
