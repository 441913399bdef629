//! The texts of a survey that are open, each read past its faults, and which form of each is next.

use crate::past::{Entry, Past};
use crate::span::{Span, cut};
use gl_logic::NoMemory;
use std::alloc::Global;

/// A text that is open: its number, and which form of it is next.
#[derive(Drop)]
struct Frame {
    file: usize,
    past: Past,
    next: usize,
    // events inside a refused one, the next of them last
    inner: Vec<Span>,
}

/// The open texts, each included by the one before it.
#[derive(Drop)]
pub(crate) struct Frames {
    open: Vec<Frame>,
}

/// The text of a number, and nothing where there is none.
pub(crate) fn of_number(texts: &[Vec<u8>], number: usize) -> &[u8] {
    match texts.get(number) {
        Some(text) => text.as_slice(),
        None => &[],
    }
}

impl Frame {
    /// The next form, and whether it is inside a refused event.
    fn next_entry(&mut self) -> Option<(Entry, bool)> {
        if let Some(span) = self.inner.pop() {
            let entry = Entry {
                span,
                is_torn: false,
                is_lost: false,
            };
            return Some((entry, true));
        }
        let entry = self.past.entries.get(self.next).copied()?;
        self.next = self.next.saturating_add(1);
        Some((entry, false))
    }
}

impl Frames {
    /// None is open.
    pub(crate) fn new(alloc: Global) -> Frames {
        Frames {
            open: Vec::new(alloc),
        }
    }

    /// Opens the text of a number.
    pub(crate) fn enter(&mut self, alloc: Global, file: usize, past: Past) -> Result<(), NoMemory> {
        self.open.push(Frame {
            file,
            past,
            next: 0,
            inner: Vec::new(alloc),
        })?;
        Ok(())
    }

    /// Lets events inside a form that begins at an offset come next.
    pub(crate) fn go_inside(&mut self, inner: &[Span], start: usize) -> Result<(), NoMemory> {
        if let Some(frame) = self.open.last_mut() {
            for span in inner {
                frame.inner.push(span.moved(start))?;
            }
        }
        Ok(())
    }

    /// The next form, and whether it is inside a refused event; none at the end.
    pub(crate) fn next_entry(&mut self) -> Option<(Entry, bool)> {
        for _ in 0..self.open.len().saturating_add(1) {
            match self.open.last_mut() {
                Some(frame) => {
                    if let Some(found) = frame.next_entry() {
                        return Some(found);
                    }
                }
                None => return None,
            }
            let _ended = self.open.pop();
        }
        None
    }

    /// The number of the text that is walked, and the bytes of a part of it; of a lost part as they were.
    pub(crate) fn part_of(
        &self,
        alloc: Global,
        entry: Entry,
        texts: &[Vec<u8>],
    ) -> Result<(usize, Vec<u8>), NoMemory> {
        let Some(frame) = self.open.last() else {
            return Ok((0, Vec::new(alloc)));
        };
        let text: &[u8] = if entry.is_lost {
            of_number(texts, frame.file)
        } else {
            &frame.past.text
        };
        Ok((frame.file, cut(text, entry.span).to_vec(alloc)?))
    }
}
