use crate::certificate::CertificateDue;
use run_answer::Due;

/// What a run is to write.
#[derive(Drop)]
pub enum Delivery<'a> {
    /// A text that was made whole, and its status.
    Text(Due),
    /// A certificate, which is written while it is made.
    Certificate(CertificateDue<'a>),
}
