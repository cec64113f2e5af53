// A source in memory that fails on demand.
ghost use Rattle.std.specs.Prelude.{◌≡◌, ◌<◌, ◌≤◌, ◌↔◌, Some, length, min, Contains, IfOk, OnErr, IsErr};
ghost use Rattle.sidb_io.specs.Memory.{supply_after};
ghost use Rattle.sidb_io.specs.Outside.{FailsWith, Fills, IsCountAfter};

use crate::fill::fill;
use crate::{Failed, Source};
use std::marker::Model;

/// Gives at most `piece` bytes a call. The calls whose numbers, counted from 0, are in `fails`
/// fail.
#[derive(Drop)]
pub struct MemSource {
    bytes: Vec<u8>,
    at: usize,
    piece: usize,
    fails: Vec<u64>,
    calls: u64,
    faults: u64,
}

impl Model for MemSource {
    ghost use Rattle.std.specs.Prelude.{◌<◌, ◌≤◌, length, drop};
    ghost use Rattle.sidb_io.specs.Memory.{Supply};

    ghost Value = { Supply };

    ghost view = { λ s. record {
      left = drop s.at s.bytes.items;
      piece = s.piece;
      fails = s.fails.items;
      calls = s.calls;
      faults = s.faults;
    } };

    ghost invariant = { λ s. (s.at ≤ length s.bytes.items) × (0 < s.piece) };
}

impl MemSource {
    /// A source of these bytes.
    pub fn new(bytes: Vec<u8>, piece: usize, fails: Vec<u64>) -> MemSource
        requires { 0 < piece }
        ensures { result ≡ record {
          left = bytes.items;
          piece = piece;
          fails = fails.items;
          calls = 0;
          faults = 0;
        } }
    {
        MemSource {
            bytes,
            at: 0,
            piece,
            fails,
            calls: 0,
            faults: 0,
        }
    }
}

impl Source for MemSource {
    ghost left = { λ s. Some s.left };

    ghost faults = { λ s. s.faults };

    fn read(&mut self, buf: &mut [u8]) -> Result<usize, Failed>
        ensures ok { IfOk result (Fills (Some self.old.left) (Some self.new.left) buf.old buf.new) }
        ensures err { OnErr result
            (FailsWith (Some self.old.left) (Some self.new.left) self.old.faults self.new.faults) }
        ensures counts { IsCountAfter self.old.faults self.new.faults result }
        ensures listed { IsErr result ↔ Contains self.old.fails self.old.calls }
        ensures piece { IfOk result (λ k. k ≡ min (min self.old.piece (length buf.old))
            (length self.old.left)) }
        ensures next { self.new ≡ supply_after self.old result }
    {
        let call = self.calls;
        self.calls = call.saturating_add(1);
        if self.fails.contains(&call) {
            self.faults = self.faults.saturating_add(1);
            return Err(Failed);
        }
        let given = fill(&self.bytes[self.at..], self.piece, buf);
        self.at += given;
        Ok(given)
    }
}
