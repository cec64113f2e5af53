// The real edge of reading. As a source it tells nothing of content: that stands in what is said of
// the reader inside.
ghost use Rattle.std.specs.Prelude.{◌≡◌, ◌≤◌, None, IfOk, OnErr, length, drop};
ghost use Rattle.std.specs.Io.KnownBytes.{ReadConsumes};
ghost use Rattle.sidb_io.specs.Outside.{FailsWith, Fills, IsCountAfter, faults_after};

use crate::{Failed, Source};
use std::io;
use std::io::Read;

/// The most bytes of one call.
const BLOCK: usize = 4096;

/// One `read` of the inner reader a call. An error raises the count.
#[derive(Drop)]
pub struct RealSource<R> {
    inner: R,
    faults: u64,
}

impl<R: Read> RealSource<R> {
    /// A source over this reader.
    pub fn new(inner: R) -> RealSource<R>
        ensures count { result.faults ≡ 0 }
        ensures reader { result.inner ≡ inner }
    {
        RealSource { inner, faults: 0 }
    }
}

// One read of the reader, which may write past what it gives, so that it gets a block of its own.
fn read_once<R: Read>(inner: &mut R, buf: &mut [u8]) -> io::Result<usize>
    ensures bytes { ReadConsumes (R.remaining inner.old) (R.remaining inner.new) result buf.new }
    ensures within { IfOk result (λ n. n ≤ length buf.old) }
    ensures rest { IfOk result (λ n. drop n buf.new ≡ drop n buf.old) }
    ensures untouched { OnErr result (buf.new ≡ buf.old) }
{
    let mut block = [0u8; BLOCK];
    let room = BLOCK.min(buf.len());
    let given = inner.read(&mut block[..room])?;
    buf[..given].copy_from_slice(&block[..given]);
    Ok(given)
}

impl<R: Read> Source for RealSource<R> {
    ghost left = { λ _. None };

    ghost faults = { λ s. s.faults };

    fn read(&mut self, buf: &mut [u8]) -> Result<usize, Failed>
        ensures ok { IfOk result (Fills None None buf.old buf.new) }
        ensures err { OnErr result (FailsWith None None self.old.faults self.new.faults) }
        ensures counts { IsCountAfter self.old.faults self.new.faults result }
        ensures next { self.new.faults ≡ faults_after self.old.faults result }
        ensures bytes { ReadConsumes (R.remaining self.old.inner) (R.remaining self.new.inner)
            result buf.new }
        ensures untouched { OnErr result (buf.new ≡ buf.old) }
    {
        match read_once(&mut self.inner, buf) {
            Ok(given) => Ok(given),
            Err(_) => {
                self.faults = self.faults.saturating_add(1);
                Err(Failed)
            }
        }
    }
}
