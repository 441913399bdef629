//! The time from one line of a transcript to the next.

use std::rt::Clock;
use std::time::Instant;

/// A clock, and when it was read last; none where it could not be read.
#[derive(Drop)]
pub struct Stopwatch<'a, R: Clock> {
    clock: &'a R,
    last: Option<Instant>,
}

/// Microseconds since a reading of a clock; 0 where it cannot be read once more.
fn micros_since<R: Clock>(clock: &R, last: Instant) -> u64 {
    match last.elapsed(clock) {
        Ok(time) => {
            let whole = time.as_secs().saturating_mul(1_000_000);
            whole.saturating_add(time.subsec_micros() as u64)
        }
        Err(_) => 0,
    }
}

impl<'a, R: Clock> Stopwatch<'a, R> {
    /// Begins.
    pub fn new(clock: &'a R) -> Stopwatch<'a, R> {
        Stopwatch {
            clock,
            last: Instant::now(clock).ok(),
        }
    }

    /// Microseconds since it was asked last, or began.
    pub fn lap(&mut self) -> u64 {
        let micros = match self.last {
            Some(last) => micros_since(self.clock, last),
            None => 0,
        };
        self.last = Instant::now(self.clock).ok();
        micros
    }
}
