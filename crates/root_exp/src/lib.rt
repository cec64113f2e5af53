//! The square root and the sums of the exponential series that enclose a screened potential.
#![tactic(auto)]

mod exponential;
pub mod laws;
mod roots;

pub use exponential::{Sums, exp_sums, lower_sum, upper_sum};
pub use roots::root40;

/// One, in the unit of an argument of the exponential.
pub const UNIT: u128 = 0x1000_0000_0000_0000;

/// The order of the sums: the last power that they add.
pub const ORDER: u64 = 96;

/// The greatest argument of the sums, in whole units.
pub const MAX_ARGUMENT: u128 = 25;
