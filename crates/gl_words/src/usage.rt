//! Words that are no command.

ghost use Rattle.std.specs.Prelude.{◌≡◌, ◌≢◌, ◌⊎◌};
ghost use Rattle.gl_base.specs.Outside.{Rose, Grows, GrowsByFront};
ghost use Rattle.gl_words.specs.Usage.{usage_line};

use command_line::WordsEnd;
use gl_base::sink::{Sink, put_all};
use gl_base::status::Status;

/// How a command is written.
const USAGE: &[u8] =
    b"USAGE gl [--workers N] [--steps N] [--cells N] [--nodes N] [--clauses N] [--enum-bits N] [--proof cnf|log] (BOOK | --generate N) | gl lrat [--workers N] CNF LOG\n";

/// Writes the usage line, and nothing else. No flush follows.
pub fn refuse_words<K: Sink>(out: &mut K) -> Status
    ensures answer { (result ≡ Status.Usage) ⊎ (result ≡ Status.WriteFault) }
    ensures usage { result ≡ Status.Usage → Grows (K.written out.old) (K.written out.new) usage_line }
    ensures cause { result ≡ Status.WriteFault → Rose (K.faults out.old) (K.faults out.new) }
    ensures front { result ≡ Status.WriteFault → GrowsByFront (K.written out.old) (K.written out.new) usage_line }
    ensures stayed { result ≡ Status.Usage → K.faults out.new ≡ K.faults out.old }
{
    match put_all(out, USAGE) {
        Ok(()) => Status::Usage,
        Err(_) => Status::WriteFault,
    }
}

/// Ends a run that has no words: for want of memory with nothing written, else as words that are no command.
pub fn refuse_end<K: Sink>(end: WordsEnd, out: &mut K) -> Status
    ensures memory { end ≡ WordsEnd.Memory → (result ≡ Status.NoMemory) × (out.new ≡ out.old) }
    ensures no_text { end ≢ WordsEnd.Memory → (result ≡ Status.Usage) ⊎ (result ≡ Status.WriteFault) }
    ensures usage { result ≡ Status.Usage → Grows (K.written out.old) (K.written out.new) usage_line }
    ensures cause { result ≡ Status.WriteFault → Rose (K.faults out.old) (K.faults out.new) }
    ensures front { result ≡ Status.WriteFault → GrowsByFront (K.written out.old) (K.written out.new) usage_line }
    ensures stayed { result ≡ Status.Usage → K.faults out.new ≡ K.faults out.old }
{
    match end {
        WordsEnd::Memory => Status::NoMemory,
        WordsEnd::NoText | WordsEnd::Usage => refuse_words(out),
    }
}
