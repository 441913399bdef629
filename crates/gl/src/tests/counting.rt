//! A gate that counts the tasks that begin.

ghost use Rattle.std.specs.Prelude.{◌<◌};

use gl_decide::Gate;
use std::sync::atomic::{AtomicU64, Ordering};

/// How often each of the first four tasks has begun, and how often any other.
#[derive(Drop)]
pub struct Counting {
    begun: [AtomicU64; 4],
    others: AtomicU64,
}

impl Gate for Counting {
    fn enter(&self, piece: u64) {
        if piece < 4 {
            self.begun[piece as usize].fetch_add(1, Ordering::SeqCst);
        } else {
            self.others.fetch_add(1, Ordering::SeqCst);
        }
    }
}

impl Counting {
    pub fn new() -> Counting {
        Counting {
            begun: [
                AtomicU64::new(0),
                AtomicU64::new(0),
                AtomicU64::new(0),
                AtomicU64::new(0),
            ],
            others: AtomicU64::new(0),
        }
    }

    /// How often the task of a number has begun.
    pub fn begun(&self, number: usize) -> u64
        requires { number < 4 }
    {
        self.begun[number].load(Ordering::SeqCst)
    }

    /// How often any other task has.
    pub fn others(&self) -> u64 {
        self.others.load(Ordering::SeqCst)
    }
}
