//! What is known of a charge list where only the charges of the first sites are given: whether
//! such a prefix is open, and what the energy of its completions is at least. Each call works it
//! out anew; those of `by_parts` begin with parts that the caller has.
#![tactic(auto)]

mod amount;
mod bound;
mod by_parts;
mod calls;
mod extremes;
mod flags;
pub mod laws;

pub use amount::{Amount, added, negated};
pub use bound::{cost, low, pairs_low};
pub use by_parts::{
    can_by_parts, low_by_parts, site_low_by_parts, unassigned_keeps_open, whole_extremes,
};
pub use calls::{can, closed_at};
pub use extremes::{
    Extremes, class_span, fixed, may_be_positive, nothing, plus, products, unassigned,
};
pub use flags::{Flags, flag, flags_of};
