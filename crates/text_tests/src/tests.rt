//! Worked texts, long texts, the front of a book byte by byte, and lists of books.

mod books;
mod ends;
mod lists;
mod rows;

use gl_logic::{NoMemory, Texts};
use sexp_reader::{End, Forms, forms};
use std::alloc::Global;

/// Reads a text of at most 5,000,000 bytes; None where it has more.
fn read(alloc: Global, text: &[u8], texts: &mut Texts) -> Result<Option<Forms>, NoMemory> {
    if text.len() > 5_000_000 {
        return Ok(None);
    }
    Ok(Some(forms(alloc, text, texts)?))
}

/// How a text of at most 5,000,000 bytes ends, and how many forms stand before the end.
fn end_of(alloc: Global, text: &[u8]) -> Result<Option<(End, u64)>, NoMemory> {
    let mut texts = Texts::new(alloc)?;
    let Some(read) = read(alloc, text, &mut texts)? else {
        return Ok(None);
    };
    Ok(Some((read.end, read.list.len())))
}
