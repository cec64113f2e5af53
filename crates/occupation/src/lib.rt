//! Enclosed Boltzmann shares of the entries of a list.
#![tactic(auto)]

mod energies;
mod factors;
pub mod laws;
mod pairs;
mod share;
mod sums;

pub use share::{Share, occupation};

/// The least and the greatest kT, in 10^-12 V times the elementary charge.
pub const MIN_KT: i64 = 1_000_000_000;

pub const MAX_KT: i64 = 1_000_000_000_000;

/// The whole, in the unit of a share, which is 10^-9.
pub const WHOLE: u128 = 1_000_000_000;

/// One, in the unit of a factor, which is 2^-40.
pub const ONE: u128 = 0x100_0000_0000;

/// No factor is above this, in the same unit.
pub const MAX_FACTOR: u128 = 0x40_0000_0000_0000_0000_0000_0000;
