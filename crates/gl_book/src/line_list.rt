//! A list of lines, each with what it is of.

ghost use Rattle.std.specs.Prelude.{◌≡◌, ◌<◌, [], ◌∷◌, ◌++◌, length, slice_get, Some, OnOk, OnErr};

use super::origin::{LineOf, Origin};
use gl_logic::NoMemory;
use std::alloc::Global;
use std::marker::Model;

/// A line, what it is of, and where the name stands that it tells: from a byte up to another one.
#[derive(Drop)]
struct Line {
    origin: Origin,
    name_start: usize,
    name_end: usize,
    bytes: Vec<u8>,
}

/// Lines in order, each with its last byte. Contracts see the list of their bytes.
#[derive(Drop)]
pub struct Lines {
    items: Vec<Line>,
    // of what the next lines are
    origin: Origin,
}

impl Model for Lines {
    ghost use Rattle.std.specs.Prelude.{ℕ, List, map};

    ghost Value = { List (List ℕ) };

    ghost view = { λ l. map (λ v. v.bytes.items) l.items.items };
}

impl Lines {
    /// No lines; the next ones are of the end of a list. It takes no memory.
    pub fn new(alloc: Global) -> Lines
        ensures { result ≡ [] }
    {
        Lines {
            items: Vec::new(alloc),
            origin: Origin::End,
        }
    }

    /// The lines that are put from now on are of this.
    pub fn turn_to(&mut self, origin: Origin)
        ensures { self.new ≡ self.old }
    {
        self.origin = origin;
    }

    /// The lines that are put from now on are those of the input of the same event.
    pub fn turn_to_input(&mut self)
        ensures { self.new ≡ self.old }
    {
        if let Origin::Event(spot) = self.origin {
            self.origin = Origin::Input(spot);
        }
    }

    /// What the line at a place, from 0, is of.
    pub fn of(&self, i: u64) -> LineOf<'_>
        requires { i < length self.now }
    {
        let line = &self.items[i as usize];
        LineOf {
            origin: line.origin,
            name: part_of(line.bytes.as_slice(), line.name_start, line.name_end),
        }
    }

    /// Puts a line last that tells no name. It is lost where memory runs out.
    pub fn push(&mut self, line: Vec<u8>) -> Result<(), NoMemory>
        ensures ok { OnOk result (self.new ≡ self.old ++ line.items ∷ []) }
        ensures err { OnErr result (self.new ≡ self.old) }
    {
        self.push_named(line, 0, 0)
    }

    /// Puts a line last that tells a name, from a byte of it up to another one. It is lost where memory runs out.
    pub fn push_named(
        &mut self,
        line: Vec<u8>,
        name_start: usize,
        name_end: usize,
    ) -> Result<(), NoMemory>
        ensures ok { OnOk result (self.new ≡ self.old ++ line.items ∷ []) }
        ensures err { OnErr result (self.new ≡ self.old) }
    {
        self.items.push(Line {
            origin: self.origin,
            name_start,
            name_end,
            bytes: line,
        })?;
        Ok(())
    }

    /// How many there are.
    pub fn len(&self) -> u64
        ensures { result ≡ length self.now }
    {
        self.items.len() as u64
    }

    /// The line at a place, from 0.
    pub fn at(&self, i: u64) -> &[u8]
        requires { i < length self.now }
        ensures { slice_get self.now i ≡ Some result.now }
    {
        self.items[i as usize].bytes.as_slice()
    }
}

/// A part of a text, from a byte up to another one; empty where it has none.
fn part_of(text: &[u8], start: usize, end: usize) -> &[u8] {
    if start <= end && end <= text.len() {
        &text[start..end]
    } else {
        &[]
    }
}
