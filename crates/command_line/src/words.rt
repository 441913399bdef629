//! The words of the process.

ghost use Rattle.std.specs.Prelude.{◌≡◌, ◌↔◌};

use std::alloc::AllocError;
use std::env;
use std::io::ErrorKind;
use std::rt::Env;

/// Why words give nothing.
#[derive(Clone, Copy, Debug, PartialEq, Eq)]
pub enum WordsEnd {
    /// Memory was not given.
    Memory,
    /// A word is no text.
    NoText,
    /// The words are no command.
    Usage,
}

impl From<AllocError> for WordsEnd {
    fn from(_error: AllocError) -> WordsEnd
        ensures { result ≡ WordsEnd.Memory }
    {
        WordsEnd::Memory
    }
}

/// The words behind the program's name.
pub fn words_of<R: Env + AllocGlobal>(rt: &R) -> Result<Vec<String>, WordsEnd> {
    match env::args(rt) {
        Ok(args) => Ok(args.skip(1).collect(rt.alloc())?),
        Err(error) => Err(end_of(error.kind())),
    }
}

/// Why there are no words, by the kind of the error.
fn end_of(kind: ErrorKind) -> WordsEnd
    ensures { (result ≡ WordsEnd.Memory) ↔ (kind ≡ ErrorKind.OutOfMemory) }
{
    match kind {
        ErrorKind::OutOfMemory => WordsEnd::Memory,
        _ => WordsEnd::NoText,
    }
}
