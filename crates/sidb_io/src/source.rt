// What the program reads from.
ghost use Rattle.std.specs.Prelude.{ℕ, List, Option, IfOk, OnErr};
ghost use Rattle.sidb_io.specs.Outside.{FailsWith, Fills, IsCountAfter};

use crate::Failed;

/// Bytes that are given a piece at a time, and a count of faults that stops at its last value.
pub trait Source {
    /// What is left, where the source tells that.
    ghost left: { Self → Option (List ℕ) };

    /// How many faults there were.
    ghost faults: { Self → ℕ };

    /// Gives the next bytes into the front of the buffer, and says how many.
    fn read(&mut self, buf: &mut [u8]) -> Result<usize, Failed>
        ensures ok { IfOk result (Fills (left self.old) (left self.new) buf.old buf.new) }
        ensures err { OnErr result
            (FailsWith (left self.old) (left self.new) (faults self.old) (faults self.new)) }
        ensures counts { IsCountAfter (faults self.old) (faults self.new) result };
}
