//! The definitions that are being made.

ghost use Rattle.std.specs.Prelude.{◌≡◌, ◌<◌, [], ◌∷◌, ◌++◌, length, slice_get, OnOk, OnErr, IfSome, Some};
ghost use Rattle.gl_logic.specs.Named.{IsFree, place_of};
ghost use Rattle.gl_translate.specs.Meaning.{count_at, function_names};

use gl_logic::{NoMemory, TextId};
use indexmap::IndexMap;
use std::alloc::Global;
use std::marker::Model;

/// The definitions that are being made, each with its name and its count of formals, in their order. A
/// look-up takes constant time. Contracts see the list of pairs.
#[derive(Drop)]
pub struct Owns {
    formals: IndexMap<u64, u32>,
}

impl Model for Owns {
    ghost use Rattle.std.specs.Prelude.{List, ℕ};

    ghost Value = { List (ℕ × ℕ) };

    ghost view = { λ o. o.formals.entries };
}

impl Owns {
    /// None. Takes no memory.
    pub fn new(alloc: Global) -> Owns
        ensures { result ≡ [] }
    {
        Owns {
            formals: IndexMap::new(alloc),
        }
    }

    /// Puts a definition of so many formals last.
    pub fn push(&mut self, name: TextId, formals: u32) -> Result<(), NoMemory>
        requires { IsFree (function_names self.old) name.number }
        ensures ok { OnOk result (self.new ≡ self.old ++ (name.number, formals) ∷ []) }
        ensures err { OnErr result (self.new ≡ self.old) }
    {
        self.formals.insert(name.number, formals)?;
        Ok(())
    }

    /// How many there are.
    pub fn len(&self) -> u64
        ensures { result ≡ length self.now }
    {
        self.formals.len() as u64
    }

    /// The place of a name, from 0; None where the name is free.
    pub fn place(&self, name: TextId) -> Option<u64>
        ensures place { result ≡ place_of (function_names self.now) name.number }
        ensures within { IfSome result (λ i. i < length self.now) }
    {
        match self.formals.get_index_of(&name.number) {
            Some(place) => Some(place as u64),
            None => None,
        }
    }

    /// The name and the count of formals of the definition at a place, from 0.
    pub fn at(&self, i: u64) -> (TextId, u32)
        requires { i < length self.now }
        ensures { slice_get self.now i ≡ Some (result.0.number, result.1) }
    {
        match self.formals.get_index(i as usize) {
            Some((name, formals)) => (TextId { number: *name }, *formals),
            None => unreachable!(),
        }
    }

    /// The count of formals of the definition at a place, from 0.
    pub fn formals_at(&self, place: u64) -> Option<u64>
        ensures { result ≡ count_at self.now place }
    {
        match self.formals.get_index(place as usize) {
            Some((_, formals)) => Some(u64::from(*formals)),
            None => None,
        }
    }
}
