use sidb_io::{Event, Gate};
use std::sync::atomic::{AtomicU64, Ordering};

/// Counts the steps of workers: claims apart by even and odd numbers of workers, and the looks not.
#[derive(Drop)]
pub struct StepCounts {
    claims: [AtomicU64; 2],
    enters: AtomicU64,
    publishes: AtomicU64,
}

impl StepCounts {
    /// Nothing was counted yet.
    pub fn new() -> StepCounts {
        StepCounts {
            claims: [AtomicU64::new(0), AtomicU64::new(0)],
            enters: AtomicU64::new(0),
            publishes: AtomicU64::new(0),
        }
    }

    /// The claims of workers of even numbers, and of odd ones.
    pub fn claims(&self) -> (u64, u64) {
        let even = self.claims[0].load(Ordering::SeqCst);
        let odd = self.claims[1].load(Ordering::SeqCst);
        (even, odd)
    }

    /// All claims.
    pub fn all_claims(&self) -> u64 {
        let (even, odd) = self.claims();
        even.wrapping_add(odd)
    }

    /// How many prefixes were entered after the first claims.
    pub fn enters(&self) -> u64 {
        self.enters.load(Ordering::SeqCst)
    }

    /// How many energies were published.
    pub fn publishes(&self) -> u64 {
        self.publishes.load(Ordering::SeqCst)
    }
}

impl Gate for StepCounts {
    fn at(&self, worker: u64, event: Event) {
        match event {
            Event::Claim => {
                self.claims[(worker % 2) as usize].fetch_add(1, Ordering::SeqCst);
            }
            Event::Look => {}
            Event::Enter => {
                self.enters.fetch_add(1, Ordering::SeqCst);
            }
            Event::Publish => {
                self.publishes.fetch_add(1, Ordering::SeqCst);
            }
        }
    }
}
