// The real edge of writing. As a sink it tells nothing of content, since a flush may fail after
// bytes were taken: that stands in what is said of the writer inside.
ghost use Rattle.std.specs.Prelude.{◌≡◌, ◌≤◌, None, IfOk, OnErr, length};
ghost use Rattle.sidb_io.specs.Outside.{FailsWith, IsCountAfter, TakesFrom, WritesFront, faults_after};

use crate::{Failed, Sink};
use std::io;
use std::io::Write;

/// One `write` and one flush of the inner writer a call. An error, or nothing taken of a piece that
/// isn't empty, raises the count.
#[derive(Drop)]
pub struct RealSink<W> {
    inner: W,
    faults: u64,
}

impl<W: Write> RealSink<W> {
    /// A sink over this writer.
    pub fn new(inner: W) -> RealSink<W>
        ensures count { result.faults ≡ 0 }
        ensures writer { result.inner ≡ inner }
    {
        RealSink { inner, faults: 0 }
    }
}

// One write and one flush: how many bytes were taken, unless either failed.
fn write_once<W: Write>(inner: &mut W, piece: &[u8]) -> io::Result<usize>
    ensures bytes { WritesFront (W.contents inner.old) (W.contents inner.new) result piece.now }
    ensures within { IfOk result (λ n. n ≤ length piece.now) }
{
    let taken = inner.write(piece)?;
    inner.flush()?;
    Ok(taken)
}

impl<W: Write> Sink for RealSink<W> {
    ghost written = { λ _. None };

    ghost faults = { λ s. s.faults };

    fn write(&mut self, piece: &[u8]) -> Result<usize, Failed>
        ensures ok { IfOk result (TakesFrom None None piece.now) }
        ensures err { OnErr result (FailsWith None None self.old.faults self.new.faults) }
        ensures counts { IsCountAfter self.old.faults self.new.faults result }
        ensures next { self.new.faults ≡ faults_after self.old.faults result }
        ensures bytes { WritesFront (W.contents self.old.inner) (W.contents self.new.inner)
            result piece.now }
    {
        match write_once(&mut self.inner, piece) {
            Ok(taken) if taken > 0 || piece.is_empty() => Ok(taken),
            _ => {
                self.faults = self.faults.saturating_add(1);
                Err(Failed)
            }
        }
    }
}
