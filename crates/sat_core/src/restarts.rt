//! When a search is begun anew.

/// How far the average of late glue moves with a conflict, as a power of a half.
const FAST: u32 = 5;

/// The same of the average of all glue, in the end.
const SLOW: u32 = 17;

/// The fewest conflicts from one beginning to the next.
const LEAST: u32 = 2;

/// Two averages of glue, in 65,536ths: the search begins anew where the late one is a tenth above that of all, as Glucose's
/// and CaDiCaL's do. Both weigh first conflicts about alike.
#[derive(Clone, Copy)]
pub struct Restarts {
    fast: u64,
    slow: u64,
    /// How many conflicts were counted, and how far the slower average moves, as a power of a half.
    count: u64,
    shift: u32,
    /// How many conflicts were counted since the search was begun anew.
    since: u32,
}

/// An average, moved towards a value.
#[inline]
fn moved(average: u64, value: u64, shift: u32) -> u64 {
    if value >= average {
        average.wrapping_add(value.wrapping_sub(average).wrapping_shr(shift))
    } else {
        average.wrapping_sub(average.wrapping_sub(value).wrapping_shr(shift))
    }
}

impl Restarts {
    /// No conflict.
    pub fn new() -> Restarts {
        Restarts {
            fast: 0,
            slow: 0,
            count: 0,
            shift: 0,
            since: 0,
        }
    }

    /// Counts a conflict whose clause has this glue. Whether the search is to begin anew.
    pub fn is_due(&mut self, glue: u32) -> bool {
        let value = (glue as u64).wrapping_mul(65_536);
        self.fast = moved(self.fast, value, self.shift.min(FAST));
        self.slow = moved(self.slow, value, self.shift);
        self.count = self.count.wrapping_add(1);
        let next = self.shift.wrapping_add(1).min(SLOW);
        if self.count.wrapping_shr(next) > 0 {
            self.shift = next;
        }
        self.since = self.since.saturating_add(1);
        if self.since < LEAST || self.fast.wrapping_mul(10) <= self.slow.wrapping_mul(11) {
            return false;
        }
        self.since = 0;
        true
    }
}
