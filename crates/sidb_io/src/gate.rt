// Where a worker may be held before a step.

/// A step of a worker on the board.
#[derive(Clone, Copy, Debug, PartialEq, Eq)]
pub enum Event {
    /// Asks for a task.
    Claim,
    /// Reads the bound.
    Look,
    /// Counts a prefix.
    Enter,
    /// Lowers the bound.
    Publish,
}

/// Is called by a worker just before each of its steps on the board. It answers nothing and
/// changes no result.
pub trait Gate: Sync {
    /// The worker, counted from 0, is about to take this step.
    fn at(&self, worker: u64, event: Event);
}

/// Does nothing.
#[derive(Clone, Copy, Debug)]
pub struct NoGate;

impl Gate for NoGate {
    fn at(&self, _worker: u64, _event: Event) {}
}
