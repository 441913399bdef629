ghost use Rattle.std.specs.Prelude.{◌≡◌, ◌≤◌};
ghost use Rattle.gl_base.specs.CallCount.{no_calls, raised, fails_now};

use crate::failed::Failed;
use std::marker::Model;

/// Counts the calls of an object from 1, and knows which of them are to fail.
#[derive(Drop)]
pub struct Calls {
    made: u64,
    faults: u64,
    fails: Vec<u64>,
}

impl Model for Calls {
    ghost use Rattle.gl_base.specs.CallCount.{CallCount};

    ghost Value = { CallCount };

    ghost view = { λ c. record { made = c.made; faults = c.faults; fails = c.fails.items } };
}

impl Calls {
    /// No call yet. `fails` are the numbers of the calls that are to fail.
    pub fn new(fails: Vec<u64>) -> Calls
        ensures { result ≡ no_calls fails.items }
    {
        Calls {
            made: 0,
            faults: 0,
            fails,
        }
    }

    /// Counts a call, and tells whether it is to fail.
    pub fn count(&mut self) -> bool
        ensures counted { self.new ≡ record self.old { made = raised self.old.made } }
        ensures fails { result ≡ fails_now self.old }
    {
        self.made = self.made.saturating_add(1);
        self.fails.as_slice().contains(&self.made)
    }

    /// Counts the fault of a call.
    pub fn fault(&mut self) -> Failed
        ensures raised { self.new ≡ record self.old { faults = raised self.old.faults } }
        ensures later { self.old.faults ≤ self.new.faults }
    {
        self.faults = self.faults.saturating_add(1);
        Failed
    }
}
