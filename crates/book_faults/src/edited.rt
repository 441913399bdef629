//! The text of a form with parts of it replaced, and where what stands in it stood at first.

ghost use Rattle.std.specs.Prelude.{◌≡◌, IfOk};

use crate::span::{Span, cut};
use explain_report::Report;
use gl_logic::NoMemory;
use std::alloc::Global;

/// A part that was replaced: where, how many bytes were taken out, and how many put in.
#[derive(Clone, Copy, Debug, PartialEq, Eq)]
struct Edit {
    at: usize,
    taken: usize,
    put: usize,
}

/// A text with parts of it replaced.
#[derive(Drop)]
pub(crate) struct Edited {
    pub text: Vec<u8>,
    // in the order in which they were made, each of the text that it found
    edits: Vec<Edit>,
}

impl Edited {
    /// The text as it stands.
    pub(crate) fn new(alloc: Global, text: &[u8]) -> Result<Edited, NoMemory>
        ensures { IfOk result (λ edited. edited.text.items ≡ text.now) }
    {
        Ok(Edited {
            text: text.to_vec(alloc)?,
            edits: Vec::new(alloc),
        })
    }

    /// Replaces a part.
    pub(crate) fn replace(
        &mut self,
        alloc: Global,
        part: Span,
        with: &[u8],
    ) -> Result<(), NoMemory> {
        let mut text = Report::new(alloc);
        text.text(cut(&self.text, Span::new(0, part.start)));
        text.text(with);
        text.text(cut(&self.text, Span::new(part.end, self.text.len())));
        self.text = text.into_bytes()?;
        self.edits.push(Edit {
            at: part.start,
            taken: part.end.saturating_sub(part.start),
            put: with.len(),
        })?;
        Ok(())
    }

    /// Where a byte stood at first; of one that was put in the place where it was.
    pub(crate) fn place_at_first(&self, offset: usize) -> usize {
        let mut place = offset;
        for edit in self.edits.iter().rev() {
            if edit.at.saturating_add(edit.put) <= place {
                place = place.saturating_sub(edit.put).saturating_add(edit.taken);
            } else if edit.at < place {
                place = edit.at;
            }
        }
        place
    }

    /// Where a part stood at first.
    pub(crate) fn at_first(&self, part: Span) -> Span {
        Span::new(
            self.place_at_first(part.start),
            self.place_at_first(part.end),
        )
    }
}
