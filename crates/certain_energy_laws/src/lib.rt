//! Energies and slacks have extremes, and so each problem has a least certain energy, or no
//! certainly valid list.
#![tactic(auto)]

pub mod laws;
