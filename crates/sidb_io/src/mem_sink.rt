// A sink in memory that fails on demand.
ghost use Rattle.std.specs.Prelude.{◌≡◌, ◌<◌, ◌≤◌, ◌↔◌, ◌⊎◌, ◌-◌, [], Some, length, min, Contains, IsTrue, IfOk, OnErr, IsErr};
ghost use Rattle.sidb_io.specs.Memory.{Refuses, store_after};
ghost use Rattle.sidb_io.specs.Outside.{FailsWith, IsCountAfter, TakesFrom};

use crate::{Failed, Sink};
use std::marker::Model;

/// Takes at most `piece` bytes a call, and in all as many as its room had capacity. The calls whose
/// numbers, counted from 0, are in `fails` fail, and so does each where no capacity is left.
#[derive(Drop)]
pub struct MemSink {
    room: Vec<u8>,
    capacity: usize,
    piece: usize,
    fails: Vec<u64>,
    calls: u64,
    faults: u64,
}

impl Model for MemSink {
    ghost use Rattle.std.specs.Prelude.{◌<◌, ◌≤◌, length, vec_capacity};
    ghost use Rattle.sidb_io.specs.Memory.{Store};

    ghost Value = { Store };

    ghost view = { λ s. record {
      written = s.room.items;
      capacity = s.capacity;
      piece = s.piece;
      fails = s.fails.items;
      calls = s.calls;
      faults = s.faults;
    } };

    ghost invariant = { λ s. (0 < s.piece) × (length s.room.items ≤ s.capacity)
        × (s.capacity ≤ vec_capacity s.room) };
}

impl MemSink {
    ghost use Rattle.std.specs.Prelude.{vec_capacity};

    /// A sink into this room.
    pub fn new(room: Vec<u8>, piece: usize, fails: Vec<u64>) -> MemSink
        requires empty { room.items ≡ [] }
        requires some { 0 < piece }
        ensures { result ≡ record {
          written = [];
          capacity = vec_capacity room;
          piece = piece;
          fails = fails.items;
          calls = 0;
          faults = 0;
        } }
    {
        let capacity = room.capacity();
        MemSink {
            room,
            capacity,
            piece,
            fails,
            calls: 0,
            faults: 0,
        }
    }

    /// What was written.
    pub fn written(&self) -> &[u8]
        ensures { result.now ≡ self.now.written }
    {
        &self.room
    }
}

impl Sink for MemSink {
    ghost written = { λ s. Some s.written };

    ghost faults = { λ s. s.faults };

    fn write(&mut self, piece: &[u8]) -> Result<usize, Failed>
        ensures ok { IfOk result
            (TakesFrom (Some self.old.written) (Some self.new.written) piece.now) }
        ensures err { OnErr result (FailsWith (Some self.old.written) (Some self.new.written)
            self.old.faults self.new.faults) }
        ensures counts { IsCountAfter self.old.faults self.new.faults result }
        ensures refused { IsErr result ↔ Refuses self.old }
        ensures piece { IfOk result (λ k. k ≡ min (min self.old.piece (length piece.now))
            (self.old.capacity - length self.old.written)) }
        ensures next { self.new ≡ store_after self.old piece.now result }
    {
        let call = self.calls;
        self.calls = call.saturating_add(1);
        if is_refused(&self.room, self.capacity, &self.fails, call) {
            self.faults = self.faults.saturating_add(1);
            return Err(Failed);
        }
        let free = self.capacity - self.room.len();
        let taken = self.piece.min(piece.len()).min(free);
        self.room.extend_from_slice(&piece[..taken]).unwrap();
        Ok(taken)
    }
}

// Whether the number of the call is listed, or no capacity is left.
fn is_refused(written: &[u8], capacity: usize, fails: &[u64], call: u64) -> bool
    ensures { IsTrue result ↔ (Contains fails.now call ⊎ (capacity ≤ length written.now)) }
{
    capacity <= written.len() || fails.contains(&call)
}
