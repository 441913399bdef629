//! Reading a text whole.

ghost use Rattle.std.specs.Prelude.{◌≡◌, ◌≢◌, ◌≤◌, ◌<◌, ◌+◌, ◌^◌, ℕ, List, Err, IfOk, IfErr, IfSome, IsErrOf, length, take, vec_len};
ghost use Rattle.gl_base.specs.Outside.{Rose};
ghost use Rattle.lrat_tool.specs.Formulas.{last_line};
ghost use Rattle.lrat_tool.specs.Long.{IsLongText};

use super::lines::last_line;
use gl_base::shelf::Shelf;
use std::alloc::Global;

/// The bytes that a text may have.
pub const MOST_TEXT: usize = 67_108_864;

/// Why a text was not read.
#[derive(Clone, Copy, Debug, PartialEq, Eq)]
pub enum TextEnd {
    /// A call of the shelf failed.
    Failed,
    /// One byte more than a text may have is there, on this line.
    TooLong(u32),
    /// Memory was refused.
    Memory,
}

/// The line of the byte behind so many.
fn line_behind(text: &[u8], limit: usize) -> u32
    requires limit { limit < 4294967295 }
    requires long { limit < length text.now }
    ensures { result ≡ last_line (take limit text.now) }
{
    last_line(&text[..limit])
}

/// Reads the text with this name from its first byte to its last, or to the byte behind those that a text may have. Every read
/// takes a byte at least or ends the loop, and the first call of the shelf that fails ends it.
pub fn read_text<S: Shelf>(alloc: Global, shelf: &mut S, name: &str) -> Result<Vec<u8>, TextEnd>
    requires { S.may_open name.now }
    // Where the shelf tells its bytes, these are all of them.
    ensures text { IfOk result (λ bytes. IfSome (S.holds shelf.old name.now) (λ text. bytes.items ≡ text)) }
    ensures within { IfOk result (λ bytes. vec_len bytes ≤ MOST_TEXT) }
    ensures long { IfErr result (IsLongText MOST_TEXT (S.holds shelf.old name.now)) }
    ensures failed { IsErrOf result TextEnd.Failed → Rose (S.faults shelf.old) (S.faults shelf.new) }
    ensures stayed { result ≢ Err TextEnd.Failed → S.faults shelf.new ≡ S.faults shelf.old }
    ensures later { S.faults shelf.old ≤ S.faults shelf.new }
    ensures kept { (other : List ℕ) → S.holds shelf.new other ≡ S.holds shelf.old other }
{
    let Ok(()) = shelf.open(name) else {
        return Err(TextEnd::Failed);
    };
    let mut bytes: Vec<u8> = Vec::new(alloc);
    let mut buffer = [0u8; 65_536];
    while bytes.len() <= MOST_TEXT {
        let Ok(count) = shelf.read(&mut buffer) else {
            return Err(TextEnd::Failed);
        };
        if count == 0 {
            return Ok(bytes);
        }
        let Ok(()) = bytes.extend_from_slice(&buffer[..count]) else {
            return Err(TextEnd::Memory);
        };
    }
    Err(TextEnd::TooLong(line_behind(&bytes, MOST_TEXT)))
}
