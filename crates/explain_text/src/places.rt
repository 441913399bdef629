//! Where each item of a book stands.

use book_shelf::{Item, Library, Mark};
use explain_findings::{head_of, name_in};
use gl_logic::{NoMemory, TextId, Texts};
use sexp_reader::Form;
use std::alloc::Global;

/// Where an item of a book stands: the number of its text, its line and its column, which are 0 for a mark.
#[derive(Clone, Copy, Debug, PartialEq, Eq)]
pub(crate) struct Place {
    pub file: usize,
    pub line: u32,
    pub column: u32,
}

/// The first word of an item's form, and the name behind it; empty where there is none.
#[derive(Drop)]
pub(crate) struct Named {
    pub kind: Vec<u8>,
    pub name: Vec<u8>,
}

/// The names of the texts of a book, and the place of each item with what it is named. Behind them stands that of the list's end.
#[derive(Drop)]
pub(crate) struct Places {
    pub files: Vec<Vec<u8>>,
    pub items: Vec<Place>,
    pub named: Vec<Named>,
    // the numbers of the texts that are open, the last of them last
    open: Vec<usize>,
}

/// The mode after an event of this kind; none of another kind.
fn mode_of(kind: &[u8]) -> Option<&'static str> {
    if kind == b"GL-BDD-MODE".as_slice() {
        Some("BDD")
    } else if kind == b"GL-PARAM-MODE".as_slice() {
        Some("PARAM")
    } else if kind == b"GL-SATLINK-MODE".as_slice() {
        Some("SAT")
    } else {
        None
    }
}

impl Places {
    /// A book of a name, without an item.
    pub(crate) fn new(alloc: Global, name: &[u8]) -> Result<Places, NoMemory> {
        let name = name.to_vec(alloc)?;
        let mut places = Places {
            files: Vec::new(alloc),
            items: Vec::new(alloc),
            named: Vec::new(alloc),
            open: Vec::new(alloc),
        };
        places.enter(name)?;
        Ok(places)
    }

    fn enter(&mut self, name: Vec<u8>) -> Result<(), NoMemory> {
        self.open.push(self.files.len())?;
        self.files.push(name)?;
        Ok(())
    }

    /// Puts the place of an item of the text that is open last.
    pub(crate) fn put(&mut self, line: u32, column: u32) -> Result<(), NoMemory> {
        let file = match self.open.last() {
            Some(number) => *number,
            None => 0,
        };
        self.items.push(Place { file, line, column })?;
        Ok(())
    }

    fn put_named(&mut self, alloc: Global, kind: &[u8], name: &[u8]) -> Result<(), NoMemory> {
        self.named.push(Named {
            kind: kind.to_vec(alloc)?,
            name: name.to_vec(alloc)?,
        })?;
        Ok(())
    }

    fn put_form(&mut self, alloc: Global, texts: &Texts, form: &Form) -> Result<(), NoMemory> {
        self.put(form.line, form.column)?;
        let name = match name_in(&form.tree) {
            Some(name) => texts.text(name),
            None => &[],
        };
        self.put_named(alloc, head_of(texts, &form.tree), name)
    }

    fn put_mark(&mut self, alloc: Global, texts: &Texts, mark: Mark) -> Result<(), NoMemory> {
        self.put(0, 0)?;
        self.put_named(alloc, b"INCLUDE-BOOK", b"")?;
        match mark {
            Mark::Book(name) => self.enter(path_of(alloc, texts, name)?),
            Mark::End(_) => {
                self.open.pop();
                Ok(())
            }
            Mark::Same(_) => Ok(()),
        }
    }

    /// Puts the places of a book's items, and behind them that of the list's end.
    fn put_all(&mut self, alloc: Global, library: &Library, texts: &Texts) -> Result<(), NoMemory> {
        for i in 0..library.items.len() {
            match library.items.at(i) {
                Item::Form(form) => self.put_form(alloc, texts, form)?,
                Item::Mark(mark) => self.put_mark(alloc, texts, *mark)?,
            }
        }
        self.put(0, 0)
    }

    /// The mode in front of an item: a book begins with decision diagrams.
    pub(crate) fn mode_at(&self, item: usize) -> &'static str {
        let mut mode = "BDD";
        for (i, named) in self.named.iter().enumerate() {
            if i < item {
                mode = mode_of(named.kind.as_slice()).unwrap_or(mode);
            }
        }
        mode
    }

    /// The place of the list's end.
    pub(crate) fn end(&self) -> Place {
        match self.items.last() {
            Some(place) => *place,
            None => Place {
                file: 0,
                line: 0,
                column: 0,
            },
        }
    }

    /// The name of the book that is run.
    pub(crate) fn book(&self) -> &[u8] {
        match self.files.first() {
            Some(name) => name.as_slice(),
            None => &[],
        }
    }

    /// The name of the text of a place.
    pub(crate) fn file(&self, place: Place) -> &[u8] {
        match self.files.get(place.file) {
            Some(name) => name.as_slice(),
            None => &[],
        }
    }

    /// The number of the first item from one on that stands at a line and a column; that of the list's end where there is none.
    pub(crate) fn number_at(&self, first: usize, line: u32, column: u32) -> usize {
        for (number, place) in self.items.iter().enumerate() {
            if first <= number && place.line == line && place.column == column {
                return number;
            }
        }
        self.items.len().saturating_sub(1)
    }
}

/// The name of the text of an included book.
fn path_of(alloc: Global, texts: &Texts, book: TextId) -> Result<Vec<u8>, NoMemory> {
    let mut path = texts.text(book).to_vec(alloc)?;
    path.extend_from_slice(b".lisp")?;
    Ok(path)
}

/// The places of a book's items, and behind them that of the list's end.
pub(crate) fn places_of(
    alloc: Global,
    name: &[u8],
    library: &Library,
    texts: &Texts,
) -> Result<Places, NoMemory> {
    let mut places = Places::new(alloc, name)?;
    places.put_all(alloc, library, texts)?;
    Ok(places)
}
