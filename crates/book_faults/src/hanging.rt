//! What hangs on a refused event: what uses the name that it was to define, by itself or through definitions.

use crate::found::Unjudged;
use explain_findings::head_of;
use gl_logic::{NoMemory, TextId, Texts, Tree, TreeKind};
use std::alloc::Global;

/// How many parts of a form are looked into.
const MOST_PARTS: usize = 4_000_000;

/// The names that hang on a refused event, and how many events do.
#[derive(Drop)]
pub(crate) struct Hanging {
    // of each name by its number the number of the refused event from 1, and 0 where it hangs on none
    roots: Vec<usize>,
    counts: Vec<Unjudged>,
}

impl Hanging {
    /// Nothing hangs on anything.
    pub(crate) fn new(alloc: Global) -> Hanging {
        Hanging {
            roots: Vec::new(alloc),
            counts: Vec::new(alloc),
        }
    }

    /// The number of the refused event on which a name hangs.
    fn root_of_name(&self, name: TextId) -> Option<usize> {
        match self.roots.get(name.number as usize) {
            Some(0) | None => None,
            Some(root) => Some(*root),
        }
    }

    /// Whether a name hangs on a refused event.
    pub(crate) fn hangs(&self, name: TextId) -> bool {
        self.root_of_name(name).is_some()
    }

    /// Lets a name hang on a refused event.
    pub(crate) fn hang(&mut self, name: TextId, root: usize) -> Result<(), NoMemory> {
        let number = name.number as usize;
        for _ in self.roots.len()..number.saturating_add(1) {
            self.roots.push(0)?;
        }
        if number < self.roots.len() {
            self.roots[number] = root;
        }
        Ok(())
    }

    /// A refused event, which was to define this name.
    pub(crate) fn refuse(&mut self, name: TextId) -> Result<(), NoMemory> {
        if self.root_of_name(name).is_some() {
            return Ok(());
        }
        self.counts.push(Unjudged { name, count: 0 })?;
        let root = self.counts.len();
        self.hang(name, root)
    }

    /// Counts an event that hangs on a refused one.
    pub(crate) fn count(&mut self, root: usize) {
        let number = root.saturating_sub(1);
        if number < self.counts.len() {
            let count = self.counts[number].count;
            self.counts[number].count = count.saturating_add(1);
        }
    }

    /// The counts of all refused events.
    pub(crate) fn counts(&self) -> &[Unjudged] {
        &self.counts
    }

    /// The first refused event on which a form hangs: by a symbol outside of quotes.
    pub(crate) fn root_of(
        &self,
        alloc: Global,
        texts: &Texts,
        form: &Tree,
    ) -> Result<Option<usize>, NoMemory> {
        if self.counts.is_empty() {
            return Ok(None);
        }
        let mut left = Vec::new(alloc);
        left.push(form)?;
        self.root_among(texts, &mut left)
    }

    fn root_among<'a>(
        &self,
        texts: &Texts,
        left: &mut Vec<&'a Tree>,
    ) -> Result<Option<usize>, NoMemory> {
        for _ in 0..MOST_PARTS {
            let Some(part) = left.pop() else {
                return Ok(None);
            };
            if let TreeKind::Symbol(name) = part.kind() {
                if let Some(root) = self.root_of_name(name) {
                    return Ok(Some(root));
                }
            }
            if head_of(texts, part) != b"QUOTE".as_slice() {
                for inner in part.elements() {
                    left.push(inner)?;
                }
            }
        }
        Ok(None)
    }
}
