// A sink that never fails.
ghost use Rattle.std.specs.Prelude.{◌≡◌, ◌≤◌, None, Ok, length, IfOk, OnErr};
ghost use Rattle.sidb_io.specs.Outside.{FailsWith, IsCountAfter, TakesFrom};

use crate::{Failed, Sink};

/// Takes each piece whole, keeps nothing and never fails. It tells nothing of content.
#[derive(Clone, Copy, Debug, Default)]
pub struct SteadySink;

impl SteadySink {
    /// The sink.
    pub fn new() -> SteadySink {
        SteadySink
    }
}

impl Sink for SteadySink {
    ghost written = { λ _. None };

    ghost faults = { λ _. 0 };

    fn write(&mut self, piece: &[u8]) -> Result<usize, Failed>
        ensures ok { IfOk result (TakesFrom None None piece.now) }
        ensures err { OnErr result (FailsWith None None 0 0) }
        ensures counts { IsCountAfter 0 0 result }
        ensures whole { result ≡ Ok (length piece.now) }
    {
        Ok(piece.len())
    }
}
