//! The lines of a verdict, as lines and as bytes.

ghost use Rattle.std.specs.Prelude.{◌≡◌, ◌<◌, ◌++◌, length, IfOk, OnOk, OnErr};
ghost use Rattle.std.specs.List.{concat};
ghost use Rattle.gl_book.specs.Lines.{verdict_lines as lines_meant};

use super::line_list::Lines;
use super::lines::add_verdict;
use gl_decide::Verdict;
use gl_logic::{NoMemory, Texts};
use shape_spec::Thm;
use std::alloc::Global;

/// The lines that a transcript has for a theorem with this verdict. A name that the table does not number has none of its
/// bytes there.
pub fn lines_of_verdict(
    alloc: Global,
    thm: &Thm,
    verdict: &Verdict,
    texts: &Texts,
) -> Result<Lines, NoMemory>
    ensures lines { IfOk result (λ lines. lines ≡ lines_meant texts.now thm.now.name.number verdict.now) }
    ensures some { IfOk result (λ lines. 0 < length lines) }
{
    let mut lines = Lines::new(alloc);
    add_verdict(alloc, thm.name, verdict, texts, &mut lines)?;
    Ok(lines)
}

/// Appends the lines that a transcript has for a theorem with this verdict.
///
/// # Errors
///
/// `NoMemory` where memory was refused; the bytes are then as before.
pub fn verdict_lines(
    alloc: Global,
    thm: &Thm,
    verdict: &Verdict,
    texts: &Texts,
    out: &mut Vec<u8>,
) -> Result<(), NoMemory>
    ensures ok { OnOk result (out.new.items ≡ out.old.items ++ concat (lines_meant texts.now thm.now.name.number verdict.now)) }
    ensures refused { OnErr result (out.new.items ≡ out.old.items) }
{
    let lines = lines_of_verdict(alloc, thm, verdict, texts)?;
    let bytes = joined(alloc, &lines)?;
    out.extend_from_slice(&bytes)?;
    Ok(())
}
/// The bytes of lines, one behind the other.
fn joined(alloc: Global, lines: &Lines) -> Result<Vec<u8>, NoMemory>
    ensures { IfOk result (λ v. v.items ≡ concat lines.now) }
{
    let mut bytes = Vec::new(alloc);
    for i in 0..lines.len() {
        bytes.extend_from_slice(lines.at(i))?;
    }
    Ok(bytes)
}
