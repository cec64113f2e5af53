/// The call failed, and its object counted it.
#[derive(Clone, Copy, Debug, PartialEq, Eq)]
pub struct Failed;
