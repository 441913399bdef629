//! A shelf that remembers which texts it was asked for.

ghost use Rattle.std.specs.Prelude.{◌≡◌, true};

use gl_base::failed::Failed;
use gl_base::shelf::Shelf;
use std::alloc::Global;
use std::marker::Model;

/// A shelf, and the names of the texts that it was asked for, the last one last, as far as there was memory for them. Contracts
/// see the shelf.
#[derive(Drop)]
pub struct NamingShelf<S: Shelf + Drop> {
    shelf: S,
    names: Vec<String>,
}

impl<S: Shelf + Drop> Model for NamingShelf<S> {
    ghost use Rattle.std.specs.Prelude.{map, string_bytes};
    ghost use Rattle.gl_logic.specs.Every.{Every};

    ghost Value = { S };

    ghost view = { λ s. s.shelf };

    // each of these texts may be opened
    ghost invariant = { λ s. Every S.may_open (map string_bytes s.names.items) };
}

impl<S: Shelf + Drop> NamingShelf<S> {
    /// It was asked for no text yet.
    pub fn new(alloc: Global, shelf: S) -> NamingShelf<S>
        ensures { result ≡ shelf }
    {
        NamingShelf {
            shelf,
            names: Vec::new(alloc),
        }
    }

    /// The name of the text that it was asked for last.
    pub fn last_name(&self) -> &str {
        match self.names.last() {
            Some(name) => name.as_str(),
            None => "",
        }
    }

    /// Whether it was asked for the text with this name: it may be opened once more.
    pub fn was_asked(&self, name: &str) -> bool
        ensures { result ≡ true → S.may_open name.now }
    {
        for i in 0..self.names.len() {
            if self.names[i].as_str() == name {
                return true;
            }
        }
        false
    }

    /// Remembers that a text was asked for. Where memory is refused it is forgotten, and nothing of it is shown.
    fn keep_name(&mut self, name: &str)
        requires { S.may_open name.now }
        ensures { self.new ≡ self.old }
    {
        let alloc = *self.names.allocator();
        if let Ok(copy) = String::from_str(alloc, name) {
            let _kept = self.names.push(copy);
        }
    }
}

impl<S: Shelf + Drop> Shelf for NamingShelf<S> {
    ghost may_open = { S.may_open };

    ghost holds = { S.holds };

    ghost rest = { S.rest };

    ghost is_open = { S.is_open };

    ghost faults = { S.faults };

    fn open(&mut self, name: &str) -> Result<(), Failed> {
        self.keep_name(name);
        self.shelf.open(name)
    }

    fn read(&mut self, buf: &mut [u8]) -> Result<usize, Failed> {
        self.shelf.read(buf)
    }
}
