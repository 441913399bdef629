ghost use Rattle.std.specs.Prelude.{◌≡◌, ◌≤◌, ◌<◌, ℕ, List, Option, length, take, IfOk, OnOk, OnErr};
ghost use Rattle.gl_base.specs.Outside.{HasCause, Grows, GrowsByFront, Stays};

use crate::failed::Failed;

/// Where a run's bytes go.
///
/// A sink may tell the bytes that it took, as one in memory does, or tell nothing, as standard output does: what is
/// said of bytes is said where they are told.
pub trait Sink {
    /// All bytes taken so far, where told.
    ghost written: { Self → Option (List ℕ) };

    /// How many calls have failed. The count rises where a call fails and only there, and stands still at the end of
    /// its type.
    ghost faults: { Self → ℕ };

    /// Takes the first bytes of a piece, one at least, and tells how many.
    fn write(&mut self, piece: &[u8]) -> Result<usize, Failed>
        requires { 0 < length piece.now }
        ensures within { IfOk result (λ n. (0 < n) × (n ≤ length piece.now)) }
        ensures bytes { IfOk result (λ n. Grows (written self.old) (written self.new) (take n piece.now)) }
        ensures err { OnErr result (Stays (written self.old) (written self.new)) }
        ensures cause { HasCause (faults self.old) (faults self.new) result };

    /// Hands on what was taken.
    fn flush(&mut self) -> Result<(), Failed>
        ensures same { Stays (written self.old) (written self.new) }
        ensures cause { HasCause (faults self.old) (faults self.new) result };
}

/// Hands over all bytes of a piece, what the sink leaves again and again. Where a call fails, a front of the piece
/// was taken, which is not the whole.
pub fn put_all<K: Sink>(sink: &mut K, piece: &[u8]) -> Result<(), Failed>
    ensures ok { OnOk result (Grows (K.written sink.old) (K.written sink.new) piece.now) }
    ensures err { OnErr result (GrowsByFront (K.written sink.old) (K.written sink.new) piece.now) }
    ensures cause { HasCause (K.faults sink.old) (K.faults sink.new) result }
{
    let mut start = 0;
    while start < piece.len() {
        start += sink.write(&piece[start..])?;
    }
    Ok(())
}
