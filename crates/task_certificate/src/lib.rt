//! The tasks that write a certificate of a problem's ground list, and that check one.
#![tactic(auto)]

mod certificate;
mod certify;
mod check;
mod delivery;
pub mod laws;

pub use certificate::CertificateDue;
pub use certify::certify_answer;
pub use check::check_answer;
pub use delivery::Delivery;
