//! The reports of truth tables, of domains and of generated layouts.
#![tactic(auto)]

mod answers;
mod domain;
mod domain_lines;
mod generated;
pub mod laws;
mod patterns;
mod truth;
mod truth_lines;

pub use answers::answer_text;
pub use domain::domain_json;
pub use domain_lines::domain_text;
pub use generated::gen_text;
pub use truth::truth_json;
pub use truth_lines::truth_text;
