//! Texts that are read as forms, and as bindings.

ghost use Rattle.std.specs.Prelude.{◌≡◌, IfOk};
ghost use Rattle.shape_spec.specs.BindingsMeant.{bindings_meant};

use gl_logic::{NoMemory, Texts, Tree};
use sexp_reader::forms;
use shape_spec::{BindFault, Bindings, bindings};
use std::alloc::Global;

/// The first form of a text; none where it has none, or is no text of a book.
pub(crate) fn form_of(
    alloc: Global,
    texts: &mut Texts,
    text: &[u8],
) -> Result<Option<Tree>, NoMemory> {
    if text.len() >= 4_294_967_295 {
        return Ok(None);
    }
    let read = forms(alloc, text, texts)?;
    if read.list.len() == 0 {
        return Ok(None);
    }
    Ok(Some(read.list.at(0).tree.copy(alloc)?))
}

/// The bindings of a form; none where it means none.
pub(crate) fn bindings_in(
    alloc: Global,
    texts: &Texts,
    form: &Tree,
) -> Result<Option<Bindings>, NoMemory>
    ensures { IfOk result (λ found. found ≡ bindings_meant texts.now form.now) }
{
    match bindings(alloc, form, texts) {
        Ok(found) => Ok(Some(found)),
        Err(BindFault::Bad) => Ok(None),
        Err(BindFault::Memory) => Err(NoMemory),
    }
}

/// The bindings of a text; none where it means none.
pub fn bindings_of_text(
    alloc: Global,
    texts: &mut Texts,
    text: &[u8],
) -> Result<Option<Bindings>, NoMemory> {
    match form_of(alloc, texts, text)? {
        Some(form) => bindings_in(alloc, texts, &form),
        None => Ok(None),
    }
}

/// Whether the text of bindings binds a word, whatever its case.
pub fn is_bound(
    alloc: Global,
    texts: &mut Texts,
    text: &[u8],
    word: &[u8],
) -> Result<bool, NoMemory> {
    let Some(bindings) = bindings_of_text(alloc, texts, text)? else {
        return Ok(false);
    };
    for i in 0..bindings.len() {
        if texts.text(bindings.variable(i)).eq_ignore_ascii_case(word) {
            return Ok(true);
        }
    }
    Ok(false)
}
