ghost use Rattle.std.specs.Prelude.{◌≡◌, ◌||◌, ◌≤◌, ◌<◌, ◌+◌, ◌++◌, ℕ, List, [], length, take, Some, nat_lt, is_err, if◌then◌else◌, IfOk, OnOk, OnErr, vec_len, vec_capacity};
ghost use Rattle.gl_base.specs.Outside.{HasCause, Grows};
ghost use Rattle.gl_base.specs.CallCount.{no_calls, fails_now, counted};
ghost use Rattle.gl_base.specs.Memory.{after_write};

use crate::calls::Calls;
use crate::failed::Failed;
use crate::sink::Sink;
use gl_logic::NoMemory;
use std::alloc::Global;
use std::marker::Model;

/// Bytes in memory, in a room that is reserved at making. A piece is taken whole. Each call counts one, from 1; those
/// whose numbers are listed fail, and so does the `write` of a piece that does not fit into the room.
#[derive(Drop)]
pub struct MemorySink {
    taken: Vec<u8>,
    room: usize,
    calls: Calls,
}

impl Model for MemorySink {
    ghost use Rattle.std.specs.Prelude.{◌≤◌, vec_len, vec_capacity};
    ghost use Rattle.gl_base.specs.Memory.{SinkState};

    ghost Value = { SinkState };

    ghost view = { λ s. record { taken = s.taken.items; room = s.room; calls = s.calls } };

    ghost invariant = { λ s. (vec_len s.taken ≤ s.room) × (s.room ≤ vec_capacity s.taken) };
}

impl MemorySink {
    /// Room for this many bytes, and the numbers of the calls that are to fail. Nothing is written.
    pub fn new(alloc: Global, room: usize, fails: Vec<u64>) -> Result<MemorySink, NoMemory>
        ensures { IfOk result (λ s. s ≡ record { taken = []; room = room; calls = no_calls fails.items }) }
    {
        Ok(MemorySink {
            taken: Vec::with_capacity(alloc, room)?,
            room,
            calls: Calls::new(fails),
        })
    }

    /// The bytes that were taken.
    pub fn bytes(&self) -> &[u8]
        ensures { result.now ≡ self.now.taken }
    {
        self.taken.as_slice()
    }
}

impl Sink for MemorySink {
    ghost written = { λ s. Some s.taken };

    ghost faults = { λ s. s.calls.faults };

    /// Takes the piece whole. Fails exactly where the call is one of those that are to fail, or the piece does not fit.
    fn write(&mut self, piece: &[u8]) -> Result<usize, Failed>
        requires { 0 < length piece.now }
        ensures within { IfOk result (λ n. (0 < n) × (n ≤ length piece.now)) }
        ensures bytes { IfOk result (λ n. Grows (Some self.old.taken) (Some self.new.taken) (take n piece.now)) }
        ensures err { OnErr result (Some self.new.taken ≡ Some self.old.taken) }
        ensures cause { HasCause self.old.calls.faults self.new.calls.faults result }
        ensures fails { is_err result ≡ (fails_now self.old.calls || nat_lt self.old.room (length self.old.taken + length piece.now)) }
        ensures whole { IfOk result (λ n. n ≡ length piece.now) }
        ensures after { self.new ≡ after_write self.old piece.now (is_err result) }
    {
        if self.calls.count() || piece.len() > self.room - self.taken.len() {
            return Err(self.calls.fault());
        }
        push_all(&mut self.taken, piece);
        Ok(piece.len())
    }

    /// Fails exactly where the call is one of those that are to fail.
    fn flush(&mut self) -> Result<(), Failed>
        ensures same { Some self.new.taken ≡ Some self.old.taken }
        ensures cause { HasCause self.old.calls.faults self.new.calls.faults result }
        ensures fails { is_err result ≡ fails_now self.old.calls }
        ensures after { self.new ≡ record self.old { calls = counted self.old.calls (is_err result) } }
    {
        if self.calls.count() {
            return Err(self.calls.fault());
        }
        Ok(())
    }
}

/// Puts bytes into room that is reserved.
pub(crate) fn push_all(taken: &mut Vec<u8>, piece: &[u8])
    requires { vec_len taken.old + length piece.now ≤ vec_capacity taken.old }
    ensures items { taken.new.items ≡ taken.old.items ++ piece.now }
    ensures len { vec_len taken.new ≡ vec_len taken.old + length piece.now }
    ensures capacity { vec_capacity taken.old ≤ vec_capacity taken.new }
{
    for byte in piece {
        taken.push_reserved(*byte);
    }
}
