//! Places kept by name.

ghost use Rattle.std.specs.Prelude.{◌≡◌, ℕ, ◌-◌, ◌^◌, ◌<◌, ◌≤◌, [], length, take, if◌then◌else◌, eqb, Some, None, OnOk};
ghost use Rattle.gl_logic.specs.Named.{IsIndex, place_in};
ghost use Rattle.gl_logic.specs.NewNames.{HasRoom, AreFreeFrom, numbers_of};

use super::def::Def;
use super::ids::{NoMemory, TextId};
use std::alloc::Global;
use std::marker::Model;

/// For each name a place, or none, by the name's number: a look-up takes constant time.
#[derive(Drop)]
pub(crate) struct NameIndex {
    // one more than the place, and 0 where there is none
    places: Vec<u64>,
}

impl Model for NameIndex {
    ghost use Rattle.std.specs.Prelude.{List, ℕ};

    ghost Value = { List ℕ };

    ghost view = { λ n. n.places.items };
}

impl NameIndex {
    /// No name has a place.
    pub(crate) fn new(alloc: Global) -> NameIndex
        ensures { result ≡ [] }
    {
        NameIndex {
            places: Vec::new(alloc),
        }
    }

    /// The place of a name.
    pub(crate) fn get(&self, name: TextId) -> Option<u64>
        ensures { result ≡ place_in self.now name.number }
    {
        match self.places.get(name.number as usize) {
            Some(after) => { if *after == 0 { None } else { Some(*after - 1) } }
            None => None,
        }
    }

    /// Makes room for a name. No place changes.
    pub(crate) fn reserve(&mut self, name: TextId) -> Result<(), NoMemory>
        ensures room { OnOk result (name.number < length self.new) }
        ensures kept { length self.old ≤ length self.new }
        ensures same { (other : ℕ) → place_in self.new other ≡ place_in self.old other }
    {
        while self.places.len() <= name.number as usize {
            self.places.push(0)?;
        }
        Ok(())
    }

    /// Gives a name its place.
    pub(crate) fn put(&mut self, name: TextId, place: u64)
        requires room { name.number < length self.old }
        requires small { place < 2 ^ 64 - 1 }
        ensures kept { length self.new ≡ length self.old }
        ensures places { (other : ℕ) → place_in self.new other ≡ (if eqb name.number other then Some place else place_in self.old other) }
    {
        self.places[name.number as usize] = place + 1;
    }

    /// Takes this place from a name, where it has it.
    pub(crate) fn clear(&mut self, name: TextId, place: u64)
        ensures gone { place_in self.old name.number ≡ Some place → place_in self.new name.number ≡ None }
        ensures same { (place_in self.old name.number ≡ Some place → ⊥) → place_in self.new name.number ≡ place_in self.old name.number }
        ensures others { (other : ℕ) → (other ≡ name.number → ⊥) → place_in self.new other ≡ place_in self.old other }
    {
        if self.get(name) == Some(place) {
            self.places[name.number as usize] = 0;
        }
    }

    /// Makes room for the names of these definitions. No place changes.
    pub(crate) fn reserve_all(&mut self, defs: &[Def]) -> Result<(), NoMemory>
        ensures room { OnOk result (HasRoom (length self.new) defs.now 0 (length defs.now)) }
        ensures same { (other : ℕ) → place_in self.new other ≡ place_in self.old other }
    {
        for def in defs {
            self.reserve(def.name)?;
        }
        Ok(())
    }

    /// Gives the names of the definitions from `first` on their places.
    pub(crate) fn put_all(&mut self, defs: &[Def], first: usize)
        requires first { first ≤ length defs.now }
        requires index { IsIndex self.old (take first (numbers_of defs.now)) }
        requires free { AreFreeFrom first (numbers_of defs.now) }
        requires room { HasRoom (length self.old) defs.now first (length defs.now) }
        ensures { IsIndex self.new (numbers_of defs.now) }
    {
        for i in first..defs.len() {
            self.put(defs[i].name, i as u64);
        }
    }
}
