//! Lists of books over texts in memory.

use book_shelf::{Finish, Item, Library, LoadEnd, Mark, load};
use gl_base::memory_shelf::MemoryShelf;
use gl_logic::Texts;
use std::alloc::{AllocError, Global};
use std::process::Abort;
use std::test::Fail;

/// A shelf whose texts are told as `name=text|name=text`.
fn shelf_of(alloc: Global, told: &str) -> Result<MemoryShelf, Fail> {
    let mut texts = Vec::new(alloc);
    for part in told.split('|') {
        if let Some((name, text)) = part.split_once('=') {
            texts.push((
                String::from_str(alloc, name)?,
                text.as_bytes().to_vec(alloc)?,
            ))?;
        }
    }
    Ok(MemoryShelf::new(alloc, texts, Vec::new(alloc))?)
}

/// What a list has: F for a form, B, E and S with the names of marks, and the end.
fn told(alloc: Global, library: &Library, texts: &Texts) -> Result<Vec<u8>, AllocError> {
    let mut line = Vec::new(alloc);
    for i in 0..library.items.len() {
        match library.items.at(i) {
            Item::Form(_) => line.extend_from_slice(b"F ")?,
            Item::Mark(Mark::Book(t)) => put(&mut line, b"B", texts.text(*t))?,
            Item::Mark(Mark::End(t)) => put(&mut line, b"E", texts.text(*t))?,
            Item::Mark(Mark::Same(t)) => put(&mut line, b"S", texts.text(*t))?,
        }
    }
    let end = match library.finish {
        Finish::Clean => format!(in alloc; "clean")?,
        Finish::Refused(line, column, code) => format!(in alloc; "{line} {column} {code:?}")?,
    };
    line.extend_from_slice(end.as_bytes())?;
    Ok(line)
}

fn put(line: &mut Vec<u8>, word: &[u8], name: &[u8]) -> Result<(), AllocError> {
    line.extend_from_slice(word)?;
    line.extend_from_slice(name)?;
    line.extend_from_slice(b" ")
}

/// Compares the list of the text `m` with what is wanted.
fn gives(rt: &(impl AllocGlobal + Abort), books: &str, want: &str) -> Result<(), Fail> {
    let alloc = rt.alloc();
    let mut shelf = shelf_of(alloc, books)?;
    let mut texts = Texts::new(alloc)?;
    let line = match load(alloc, &mut shelf, "m", &mut texts) {
        Ok(library) => told(alloc, &library, &texts)?,
        Err(LoadEnd::Failed) => b"failed".to_vec(alloc)?,
        Err(LoadEnd::Memory) => b"memory".to_vec(alloc)?,
    };
    assert!(rt; line.as_slice() == want.as_bytes(), "{books}: {line:?}");
    Ok(())
}

#[test]
fn lists_of_books(rt: HostRuntime) -> Result<(), Fail> {
    let twice = "m=(include-book \"f\")(include-book \"f\") 1|f.lisp=2 3";
    gives(&rt, twice, "Bf F F Ef Sf F clean")?;
    let torn = "m=1 (include-book \"a\")|a.lisp=2\n (";
    gives(&rt, torn, "F Ba F 2 3 Text(EndInside)")?;
    gives(&rt, "m=1 (include-book \"a\")", "failed")
}
