//! Texts that are handed over whole.

ghost use Rattle.std.specs.Prelude.{◌≡◌, ℕ, take, OnOk, OnErr};
ghost use Rattle.gl_base.specs.Outside.{HasCause, Grows};

use gl_base::failed::Failed;
use gl_base::sink::{Sink, put_all};

/// Hands over a text, and flushes. Where that fails a front of it was taken, which may be all of it.
pub fn put_text<K: Sink>(text: &[u8], out: &mut K) -> Result<(), Failed>
    ensures ok { OnOk result (Grows (K.written out.old) (K.written out.new) text.now) }
    ensures front { OnErr result ((n : ℕ) × Grows (K.written out.old) (K.written out.new) (take n text.now)) }
    ensures cause { HasCause (K.faults out.old) (K.faults out.new) result }
{
    put_all(out, text)?;
    out.flush()
}
