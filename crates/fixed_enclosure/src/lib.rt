//! Exact outward arithmetic: sums and multiples of spans, and products divided downward or upward.
#![tactic(auto)]

pub mod laws;
mod quotients;
mod spans;

pub use charge_model::{Span, span_between};
pub use quotients::{mul_div_down, mul_div_up};
pub use spans::{add, scale};

/// The greatest size of an end that a sum or a multiple of spans may have.
pub const MAX_END: i64 = 0x4000_0000_0000_0000;
