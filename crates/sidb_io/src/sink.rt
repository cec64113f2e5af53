// What the program writes to.
ghost use Rattle.std.specs.Prelude.{ℕ, List, Option, IfOk, OnErr};
ghost use Rattle.sidb_io.specs.Outside.{FailsWith, IsCountAfter, TakesFrom};

use crate::Failed;

/// What takes bytes a piece at a time, and a count of faults that stops at its last value.
pub trait Sink {
    /// What was written, where the sink tells that.
    ghost written: { Self → Option (List ℕ) };

    /// How many faults there were.
    ghost faults: { Self → ℕ };

    /// Takes the first bytes of the piece, and says how many.
    fn write(&mut self, piece: &[u8]) -> Result<usize, Failed>
        ensures ok { IfOk result (TakesFrom (written self.old) (written self.new) piece.now) }
        ensures err { OnErr result
            (FailsWith (written self.old) (written self.new) (faults self.old) (faults self.new)) }
        ensures counts { IsCountAfter (faults self.old) (faults self.new) result };
}
