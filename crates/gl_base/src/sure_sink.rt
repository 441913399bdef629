ghost use Rattle.std.specs.Prelude.{◌≡◌, ◌≤◌, ◌<◌, ◌++◌, ℕ, List, [], length, take, None, IfOk, OnOk, OnErr, IsOk};
ghost use Rattle.gl_base.specs.Outside.{HasCause, Grows};

use crate::failed::Failed;
use crate::memory_sink::push_all;
use crate::sink::Sink;
use gl_logic::NoMemory;
use std::alloc::Global;
use std::marker::Model;

/// A sink whose calls never fail. It takes each piece whole, keeps what fits into a room that is reserved at making,
/// and tells no bytes.
#[derive(Drop)]
pub struct SureSink {
    kept: Vec<u8>,
    room: usize,
}

impl Model for SureSink {
    ghost use Rattle.std.specs.Prelude.{◌≤◌, vec_len, vec_capacity};
    ghost use Rattle.gl_base.specs.Memory.{Keeping};

    ghost Value = { Keeping };

    ghost view = { λ s. record { kept = s.kept.items; room = s.room } };

    ghost invariant = { λ s. (vec_len s.kept ≤ s.room) × (s.room ≤ vec_capacity s.kept) };
}

impl SureSink {
    /// Room for this many bytes. Nothing is kept yet.
    pub fn new(alloc: Global, room: usize) -> Result<SureSink, NoMemory>
        ensures { IfOk result (λ s. s ≡ record { kept = []; room = room }) }
    {
        Ok(SureSink {
            kept: Vec::with_capacity(alloc, room)?,
            room,
        })
    }

    /// The bytes that were kept: the first ones, as many as the room has place for.
    pub fn bytes(&self) -> &[u8]
        ensures { result.now ≡ self.now.kept }
    {
        self.kept.as_slice()
    }
}

impl Sink for SureSink {
    ghost written = { λ _. None };

    ghost faults = { λ _. 0 };

    /// Takes the piece whole, and never fails.
    fn write(&mut self, piece: &[u8]) -> Result<usize, Failed>
        requires { 0 < length piece.now }
        ensures sure { IsOk result }
        ensures whole { IfOk result (λ n. n ≡ length piece.now) }
        ensures after { self.new ≡ record self.old { kept = take self.old.room (self.old.kept ++ piece.now) } }
    {
        let free = self.room - self.kept.len();
        let front = free.min(piece.len());
        push_all(&mut self.kept, &piece[..front]);
        Ok(piece.len())
    }

    /// Never fails.
    fn flush(&mut self) -> Result<(), Failed>
        ensures sure { IsOk result }
        ensures after { self.new ≡ self.old }
    {
        Ok(())
    }
}
