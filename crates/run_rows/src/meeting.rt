use sidb_io::{Event, Gate};
use std::sync::atomic::{AtomicBool, Ordering};

/// Holds each of the first two workers at its first claim until the other one came too.
#[derive(Drop)]
pub struct ClaimMeeting {
    came: [AtomicBool; 2],
    met: [AtomicBool; 2],
}

impl ClaimMeeting {
    /// Nobody came yet.
    pub fn new() -> ClaimMeeting {
        ClaimMeeting {
            came: [AtomicBool::new(false), AtomicBool::new(false)],
            met: [AtomicBool::new(false), AtomicBool::new(false)],
        }
    }

    /// Whether each of the two saw the other.
    pub fn is_over(&self) -> bool {
        self.met[0].load(Ordering::SeqCst) && self.met[1].load(Ordering::SeqCst)
    }
}

impl Gate for ClaimMeeting {
    fn at(&self, worker: u64, event: Event) {
        if event != Event::Claim || worker > 1 {
            return;
        }
        let me = worker as usize;
        if self.came[me].swap(true, Ordering::SeqCst) {
            return;
        }
        for _ in 0..1_000_000_000u64 {
            if self.came[1 - me].load(Ordering::SeqCst) {
                self.met[me].store(true, Ordering::SeqCst);
                return;
            }
        }
    }
}
