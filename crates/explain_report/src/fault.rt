//! What is at fault in a text, for programs.

ghost use Rattle.std.specs.Prelude.{◌≡◌, IfOk};

use gl_logic::NoMemory;
use std::alloc::Global;

/// A place in a text: the line and the column, in bytes, each from 1.
#[derive(Clone, Copy, Debug, PartialEq, Eq)]
pub struct At {
    pub line: u64,
    pub column: u64,
}

/// What is at fault in a text: its code and what is wrong, in words, the text's name, and the part that is at fault, from a
/// place up to the one behind it.
#[derive(Drop)]
pub struct Fault {
    pub code: &'static str,
    pub words: Vec<u8>,
    pub file: Vec<u8>,
    pub start: At,
    pub end: At,
}

impl Fault {
    /// What is at fault in the text of a name.
    pub fn new(
        alloc: Global,
        code: &'static str,
        words: Vec<u8>,
        file: &[u8],
        start: At,
        end: At,
    ) -> Result<Fault, NoMemory>
        ensures said { IfOk result (λ f. (f.code.now ≡ code.now) × (f.words.items ≡ words.items)) }
        ensures place { IfOk result (λ f. (f.file.items ≡ file.now) × (f.start ≡ start) × (f.end ≡ end)) }
    {
        Ok(Fault {
            code,
            words,
            file: file.to_vec(alloc)?,
            start,
            end,
        })
    }
}
