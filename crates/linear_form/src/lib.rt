//! Forms: whole quantities that are linear in the potentials, with their exact extremes over all
//! potential tables.
#![tactic(auto)]

mod extremes;
mod form;
mod forms;
pub mod laws;
mod sums;

pub use extremes::{form_span, greatest, least};
pub use form::{Form, minus};
pub use forms::{energy_form, hop_form, site_form, test_form};
