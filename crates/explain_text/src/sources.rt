//! The texts of a book once more, for what is shown of them.

use crate::naming::NamingShelf;
use crate::places::{Place, Places};
use book_faults::{Span, cut, offset_of, without_blanks};
use explain_report::{Record, Verdict};
use gl_base::shelf::Shelf;
use gl_logic::NoMemory;
use sexp_reader::{ReadEnd, read_book};
use std::alloc::Global;

/// Of how many events the forms are shown, and how many bytes of each.
const MOST_SHOWN: usize = 200;

const MOST_BYTES: usize = 2000;

/// How many bytes in front of a form are looked at for its comment.
const MOST_COMMENT: usize = 2000;

/// The text that was read last, by the number of its name.
#[derive(Drop)]
struct Last {
    file: usize,
    text: Vec<u8>,
}

/// The bytes of a text that was read before, where it is not too long and can be read once more.
pub(crate) fn text_of<S: Shelf + Drop>(
    alloc: Global,
    shelf: &mut NamingShelf<S>,
    file: &[u8],
) -> Result<Option<Vec<u8>>, NoMemory> {
    let Ok(name) = str::from_utf8(file) else {
        return Ok(None);
    };
    if !shelf.was_asked(name) {
        return Ok(None);
    }
    match read_book(alloc, shelf, name) {
        Ok(bytes) => Ok(Some(bytes)),
        Err(ReadEnd::Memory) => Err(NoMemory),
        Err(_) => Ok(None),
    }
}

/// The place of the next form of the same text.
fn next_place(places: &Places, item: usize, place: Place) -> Option<Place> {
    for next in places.items.iter().skip(item.saturating_add(1)) {
        if next.file == place.file && next.line > 0 {
            return Some(*next);
        }
    }
    None
}

/// The lines of a text, one after the other: where the line that is read begins, and its first byte that is no blank; where the
/// comment begins whose lines stand last; and where the last line ends that is neither blank nor a comment.
#[derive(Clone, Copy)]
struct Lines {
    line: usize,
    first: u8,
    comment: Option<usize>,
    code: usize,
}

impl Lines {
    /// Reads the byte at an offset.
    fn read(&mut self, offset: usize, byte: u8) {
        if byte != b'\n' {
            if self.first <= 32 {
                self.first = byte;
            }
            return;
        }
        if self.first != b';' {
            self.comment = None;
        } else if self.comment == None {
            self.comment = Some(self.line);
        }
        if self.first > 32 && self.first != b';' {
            self.code = offset;
        }
        self.line = offset.saturating_add(1);
        self.first = 0;
    }
}

/// The lines of a part of a text.
fn lines_of(text: &[u8], span: Span) -> Lines {
    let mut lines = Lines {
        line: span.start,
        first: 0,
        comment: None,
        code: span.start,
    };
    for (i, byte) in cut(text, span).iter().enumerate() {
        lines.read(span.start.saturating_add(i), *byte);
    }
    lines
}

/// Where the comment in front of a form begins, with no empty line between; where the form begins, if it has none.
fn comment_start(text: &[u8], start: usize) -> usize {
    let lines = lines_of(text, Span::new(start.saturating_sub(MOST_COMMENT), start));
    match lines.comment {
        Some(comment) if lines.first <= 32 => comment,
        _ => start,
    }
}

/// Where the last line ends of a part that is neither blank nor a comment.
fn code_end(text: &[u8], span: Span) -> usize {
    let mut lines = lines_of(text, span);
    lines.read(span.end, b'\n');
    lines.code
}

/// A form as far as it is shown, with the comment in front of it and without what stands in front of the next one.
fn form_at(
    alloc: Global,
    text: &[u8],
    place: Place,
    next: Option<Place>,
) -> Result<Vec<u8>, NoMemory> {
    let start = match offset_of(alloc, text, place.line, place.column)? {
        Some(offset) => offset,
        None => text.len(),
    };
    let behind = match next {
        Some(next) => offset_of(alloc, text, next.line, next.column)?.unwrap_or(text.len()),
        None => text.len(),
    };
    let end = code_end(text, Span::new(start, behind));
    let part = Span::new(
        comment_start(text, start),
        end.min(start.saturating_add(MOST_BYTES)),
    );
    Ok(cut(text, part).to_vec(alloc)?)
}

/// The text of a place: the one that was read last, where it is the same.
fn text_at<S: Shelf + Drop>(
    alloc: Global,
    places: &Places,
    place: Place,
    last: Option<Last>,
    shelf: &mut NamingShelf<S>,
) -> Result<Last, NoMemory> {
    if let Some(last) = last {
        if last.file == place.file {
            return Ok(last);
        }
    }
    let text = match text_of(alloc, shelf, places.file(place))? {
        Some(text) => text,
        None => Vec::new(alloc),
    };
    Ok(Last {
        file: place.file,
        text,
    })
}

/// Whether the form of a record's event is shown: a refusal shows its line itself.
fn is_shown(record: &Record) -> bool {
    let verdict = record.verdict();
    verdict.is_trouble() && verdict != Verdict::Refused
}

/// Puts the forms of the events that ask for a look with their records.
pub(crate) fn put_sources<S: Shelf + Drop>(
    alloc: Global,
    places: &Places,
    records: &mut [Record],
    shelf: &mut NamingShelf<S>,
) -> Result<(), NoMemory> {
    let mut last = None;
    let mut count: usize = 0;
    for record in records {
        if count < MOST_SHOWN && is_shown(record) {
            if let Some(place) = places.items.get(record.item) {
                let now = text_at(alloc, places, *place, last, shelf)?;
                let next = next_place(places, record.item, *place);
                record.source = form_at(alloc, now.text.as_slice(), *place, next)?;
                last = Some(now);
                count = count.saturating_add(1);
            }
        }
    }
    Ok(())
}
