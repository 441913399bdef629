//! A book's texts, each read once, to one list.

ghost use Rattle.std.specs.Prelude.{◌≡◌, ◌≤◌, ◌<◌, ◌++◌, ℕ, List, [], ◌∷◌, length, All, IfOk, OnOk, Some, true, false, string_bytes};
ghost use Rattle.gl_logic.specs.Names.{Extends};
ghost use Rattle.gl_logic.specs.Numbered.{IsNumbered};
ghost use Rattle.sexp_reader.specs.declared.list.Form.{Form as FormSeen};
ghost use Rattle.book_shelf.specs.declared.finish.ShelfCode.TheVariants as code;
ghost use Rattle.book_shelf.specs.Included.{included as included_meant, is_book_name, text_named};
ghost use Rattle.book_shelf.specs.Flat.{IsFlat, Rest, is_among, most_texts};
ghost use Rattle.book_shelf.specs.Reached.{MayLoad, MayFollow};
ghost use Rattle.book_shelf.specs.Loads.{Goes, IsCounted, IsNumberedForm, Loads, LoadsBook};
ghost use Rattle.book_shelf.specs.NumberedItems.{IsNumberedItem};
ghost use Rattle.gl_logic.specs.Every.{Every};
ghost use Rattle.gl_logic.specs.Wording.{text_of};
ghost use Rattle.std.specs.Str.{IsAscii};
ghost use Rattle.std.specs.List.{AllByRecursion};

use super::finish::{Finish, ShelfCode, finish_of};
use super::included::included;
use super::item::{Item, ItemList, Mark};
use super::library::Library;
use super::load_end::LoadEnd;
use super::paths::Paths;
use gl_base::shelf::Shelf;
use gl_logic::{NoMemory, TextId, Texts};
use sexp_reader::{Form, Forms, ReadEnd, forms, read_book};
use std::alloc::Global;

/// How far a load has come: the list so far, the texts that are being read, and those that are taken.
#[derive(Drop)]
pub(crate) struct Loading {
    items: ItemList,
    around: Paths,
    taken: Paths,
}

/// Reads a book, and each book that it includes at its place, once each: one list of their forms, with the marks of the
/// books between them. It ends at the first fault: a text's own, a book that includes itself, or one text too many.
///
/// The name of an included book's text is the book's with `.lisp` behind it, whatever stands in it.
pub fn load<S: Shelf>(
    alloc: Global,
    shelf: &mut S,
    name: &str,
    texts: &mut Texts,
) -> Result<Library, LoadEnd>
    // It opens no text but the book's own and those that are included from there.
    requires { MayLoad S.may_open (S.holds shelf.old) name.now }
    ensures flat { IfOk result (λ library. IsFlat texts.old texts.new (S.holds shelf.old) name.now library.items library.finish) }
    ensures numbered { IfOk result (λ library. Every (IsNumberedItem (length texts.new)) library.items) }
    ensures texts { Extends texts.old texts.new }
    ensures kept { (other : List ℕ) → S.holds shelf.new other ≡ S.holds shelf.old other }
    ensures cause { IsCounted (S.faults shelf.old) (S.faults shelf.new) result }
{
    let mut loading = Loading {
        items: ItemList::new(alloc),
        around: Paths::new(alloc),
        taken: Paths::new(alloc),
    };
    let finish = load_book(alloc, shelf, name, texts, &mut loading)?;
    Ok(Library {
        items: loading.items,
        finish,
    })
}

/// Reads a text and lists it.
#[cycle(load)]
fn load_book<S: Shelf>(
    alloc: Global,
    shelf: &mut S,
    name: &str,
    texts: &mut Texts,
    loading: &mut Loading,
) -> Result<Finish, LoadEnd>
    requires room { length loading.old.taken < most_texts }
    requires untaken { is_among name.now loading.old.taken ≡ false }
    requires may { MayLoad S.may_open (S.holds shelf.old) name.now }
    ensures lists { IfOk result (λ end. LoadsBook texts.old texts.new (S.holds shelf.old) loading.old.around loading.old.taken loading.old.items name.now loading.new.taken loading.new.items end) }
    ensures around { OnOk result (loading.new.around ≡ loading.old.around) }
    ensures texts { Extends texts.old texts.new }
    ensures kept { (other : List ℕ) → S.holds shelf.new other ≡ S.holds shelf.old other }
    ensures cause { IsCounted (S.faults shelf.old) (S.faults shelf.new) result }
{
    loading.taken.push(alloc, name.as_bytes())?;
    let bytes = match read_book(alloc, shelf, name) {
        Ok(bytes) => bytes,
        Err(ReadEnd::TooLong(line, column)) => {
            return Ok(Finish::Refused(line, column, ShelfCode::TooLong));
        }
        Err(ReadEnd::Failed) => return Err(LoadEnd::Failed),
        Err(ReadEnd::Memory) => return Err(LoadEnd::Memory),
    };
    let forms = forms(alloc, &bytes, texts)?;
    drop(bytes);
    loading.around.push(alloc, name.as_bytes())?;
    let finish = load_forms(alloc, shelf, forms, texts, loading)?;
    loading.around.pop();
    Ok(finish)
}

/// Lists the forms of a text.
#[cycle(load)]
fn load_forms<S: Shelf>(
    alloc: Global,
    shelf: &mut S,
    forms: Forms,
    texts: &mut Texts,
    loading: &mut Loading,
) -> Result<Finish, LoadEnd>
    requires numbered { AllByRecursion (IsNumberedForm (length texts.old)) forms.list }
    requires may { AllByRecursion (MayFollow S.may_open (S.holds shelf.old) texts.old) forms.list }
    ensures lists { IfOk result (λ end. Loads texts.new (S.holds shelf.old) loading.old.around loading.old.taken loading.old.items (Rest forms.list forms.end) loading.new.taken loading.new.items end) }
    ensures around { OnOk result (loading.new.around ≡ loading.old.around) }
    ensures texts { Extends texts.old texts.new }
    ensures kept { (other : List ℕ) → S.holds shelf.new other ≡ S.holds shelf.old other }
    ensures cause { IsCounted (S.faults shelf.old) (S.faults shelf.new) result }
{
    let end = forms.end;
    for form in forms.list.into_forms() {
        if let Some(finish) = load_form(alloc, shelf, form, texts, loading)? {
            return Ok(finish);
        }
    }
    Ok(finish_of(end))
}

/// Lists a form. The end of the list, where the form is that.
#[cycle(load)]
fn load_form<S: Shelf>(
    alloc: Global,
    shelf: &mut S,
    form: Form,
    texts: &mut Texts,
    loading: &mut Loading,
) -> Result<Option<Finish>, LoadEnd>
    requires numbered { IsNumberedForm (length texts.old) form }
    requires may { MayFollow S.may_open (S.holds shelf.old) texts.old form }
    ensures goes { IfOk result (λ end. Goes texts.new (S.holds shelf.old) loading.old.around loading.old.taken loading.old.items form loading.new.taken loading.new.items end) }
    ensures around { OnOk result (loading.new.around ≡ loading.old.around) }
    ensures texts { Extends texts.old texts.new }
    ensures kept { (other : List ℕ) → S.holds shelf.new other ≡ S.holds shelf.old other }
    ensures cause { IsCounted (S.faults shelf.old) (S.faults shelf.new) result }
    ensures more { OnOk result (length loading.old.taken ≤ length loading.new.taken) }
{
    match included(texts, &form.tree) {
        None => {
            loading.items.push(Item::Form(form))?;
            Ok(None)
        }
        Some(book) => {
            let Form { tree, line, column } = form;
            drop(tree);
            include(alloc, shelf, book, line, column, texts, loading)
        }
    }
}

/// Lists an included book, or its mark where it was taken before. The end of the list, where it ends in it.
#[cycle(load)]
fn include<S: Shelf>(
    alloc: Global,
    shelf: &mut S,
    book: TextId,
    line: u32,
    column: u32,
    texts: &mut Texts,
    loading: &mut Loading,
) -> Result<Option<Finish>, LoadEnd>
    requires number { book.number < length texts.old }
    requires name { is_book_name (text_of texts.old book.number) ≡ true }
    requires may { MayLoad S.may_open (S.holds shelf.old) (text_named texts.old book.number) }
    ensures goes { IfOk result (λ end. (form : FormSeen) → included_meant texts.old form.tree ≡ Some book.number → form.line ≡ line → form.column ≡ column → IsNumbered (length texts.old) form.tree
        → Goes texts.new (S.holds shelf.old) loading.old.around loading.old.taken loading.old.items form loading.new.taken loading.new.items end) }
    ensures around { OnOk result (loading.new.around ≡ loading.old.around) }
    ensures texts { Extends texts.old texts.new }
    ensures kept { (other : List ℕ) → S.holds shelf.new other ≡ S.holds shelf.old other }
    ensures cause { IsCounted (S.faults shelf.old) (S.faults shelf.new) result }
    ensures more { OnOk result (length loading.old.taken ≤ length loading.new.taken) }
{
    let name = path_of(alloc, book, texts)?;
    if loading.around.contains(&name) {
        return Ok(Some(Finish::Refused(line, column, ShelfCode::Cyclic)));
    }
    if loading.taken.contains(&name) {
        loading.items.push(Item::Mark(Mark::Same(book)))?;
        return Ok(None);
    }
    if loading.taken.len() >= 64 {
        return Ok(Some(Finish::Refused(line, column, ShelfCode::Many)));
    }
    loading.items.push(Item::Mark(Mark::Book(book)))?;
    match load_book(alloc, shelf, as_text(&name), texts, loading)? {
        Finish::Clean => {
            loading.items.push(Item::Mark(Mark::End(book)))?;
            Ok(None)
        }
        finish => Ok(Some(finish)),
    }
}

/// The name of a book's text.
fn path_of(alloc: Global, book: TextId, texts: &Texts) -> Result<Vec<u8>, NoMemory>
    ensures { IfOk result (λ path. path.items ≡ text_named texts.now book.number) }
{
    let mut path = texts.text(book).to_vec(alloc)?;
    path.extend_from_slice(b".lisp")?;
    Ok(path)
}

/// A name of plain bytes as text.
fn as_text(path: &[u8]) -> &str
    requires { IsAscii path.now }
    ensures { result.now ≡ path.now }
{
    match str::from_utf8(path) {
        Ok(text) => text,
        Err(_) => unreachable!(),
    }
}
