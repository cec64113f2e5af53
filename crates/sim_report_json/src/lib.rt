//! The report of a ground list as one line of JSON.
#![tactic(auto)]

mod entries;
pub mod laws;
mod marks;
mod members;
mod places;
mod report;

pub use entries::plain_values;
pub use report::ground_json;
