//! A gate that shows that two workers are at work at once.

use gl_decide::Gate;
use std::sync::atomic::{AtomicU64, Ordering};

/// The first two that begin wait for each other here, for so many turns at most.
#[derive(Drop)]
pub struct Meeting {
    begun: [AtomicU64; 2],
    met: AtomicU64,
}

impl Gate for Meeting {
    fn enter(&self, piece: u64) {
        if piece < 2 {
            let own = piece as usize;
            self.begun[own].store(1, Ordering::SeqCst);
            for _ in 0..1_000_000_000u32 {
                if self.begun[1 - own].load(Ordering::SeqCst) == 1 {
                    self.met.fetch_add(1, Ordering::SeqCst);
                    return;
                }
            }
        }
    }
}

impl Meeting {
    pub fn new() -> Meeting {
        Meeting {
            begun: [AtomicU64::new(0), AtomicU64::new(0)],
            met: AtomicU64::new(0),
        }
    }

    /// How many of the two have met the other.
    pub fn met(&self) -> u64 {
        self.met.load(Ordering::SeqCst)
    }
}
