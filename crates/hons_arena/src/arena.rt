//! The arena of interned objects.

ghost use Rattle.std.specs.Prelude.{◌≡◌, ◌-◌, ◌<◌, ◌≤◌, ◌↔◌, List, [], take, length, IfOk, OnOk, OnErr, IsErr, IsTrue, MatchOption, slice_index_or};
ghost use Rattle.gl_logic.specs.Object.{Object, nil, Int, Character, Symbol, Text, Cons, car, cdr};
ghost use Rattle.hons_arena.specs.Ids.{object_at, IsBelow, IsLive, IsIdOf, kind_of, HasNoParts, ArePartsOf};
ghost use Rattle.hons_arena.specs.Cells.{cell_object, FitsBelow};
ghost use Rattle.hons_arena.specs.Held.{Interns, IsWhole};

use crate::cell::{Cell, of_parts, parts_of_cell, same_id};
use crate::hash::{fingerprint_of, hash, home};
use crate::id::{Full, Id, Kind, Mark};
use crate::probe::{Probe, end_for};
use crate::slots::{EMPTY, FIRST_SLOTS, FREE, make_empty, make_room, most, slot_with};
use gl_logic::{NoMemory, TextId};
use std::alloc::Global;
use std::marker::Model;

/// Interned objects: each different integer, character and cons that was asked for is kept in one cell,
/// and symbols and strings take none.
///
/// Contracts see the limit and the objects of the cells, in the order of their making. The cells lie in one
/// vector beside a slot table, whose room is reserved at making: no later call takes memory. The table is small at
/// first and grows fourfold within its room when it is half full, so that making an arena takes no longer for a high limit.
/// Each slot has a byte beside it, which tells most cells apart without reading them.
#[derive(Drop)]
pub struct HonsArena {
    limit: u32,
    cells: Vec<Cell>,
    slots: Vec<u32>,
    fingerprints: Vec<u8>,
}

impl Model for HonsArena {
    ghost use Rattle.hons_arena.specs.Held.{Held, coded_held};

    ghost Value = { Held };

    ghost coded = { coded_held };

    ghost use Rattle.std.specs.Prelude.{vec_capacity};
    ghost use Rattle.hons_arena.specs.Cells.{objects_of};
    ghost use Rattle.hons_arena.specs.Sound.{IsSound};

    ghost view = { λ a. record { limit = a.limit; objects = objects_of a.cells.items } };

    ghost invariant = { λ a. IsSound a.limit a.cells.items (vec_capacity a.cells) a.slots.items (vec_capacity a.slots) a.fingerprints.items (vec_capacity a.fingerprints) };
}

impl HonsArena {
    /// An empty arena with room for so many cells.
    pub fn new(alloc: Global, limit: u32) -> Result<HonsArena, NoMemory>
        ensures { IfOk result (λ a. (a.limit ≡ limit) × (a.objects ≡ [])) }
    {
        let cells = Vec::with_capacity(alloc, limit as usize)?;
        let mut slots = Vec::with_capacity(alloc, most(limit))?;
        let mut fingerprints = Vec::with_capacity(alloc, most(limit))?;
        make_empty(&mut slots, &mut fingerprints, FIRST_SLOTS.min(most(limit)));
        Ok(HonsArena {
            limit,
            cells,
            slots,
            fingerprints,
        })
    }

    /// How many cells there are: the number of different objects that are held.
    pub fn count(&self) -> u32
        ensures count { result ≡ length self.now.objects }
        ensures within { result ≤ self.now.limit }
        ensures whole { IsWhole self.now }
    {
        self.cells.len() as u32
    }

    /// How many cells there may be.
    pub fn limit(&self) -> u32
        ensures { result ≡ self.now.limit }
    {
        self.limit
    }

    /// Whether no cell is left.
    pub(crate) fn is_full(&self) -> bool
        ensures full { IsTrue result ↔ (length self.now.objects ≡ self.now.limit) }
        ensures whole { IsWhole self.now }
    {
        self.count() == self.limit
    }

    /// The id of what a cell keeps, in a cell that has it already or in a new one.
    #[inline(always)]
    fn enter(&mut self, cell: Cell) -> Result<Id, Full>
        requires { FitsBelow (length self.old.objects) cell }
        ensures { Interns self.old self.new (cell_object self.old.objects cell) result }
    {
        let hash = hash(cell);
        match end_for(
            self.cells.as_slice(),
            self.slots.as_slice(),
            self.fingerprints.as_slice(),
            cell,
            hash,
        ) {
            Probe::Found(number) => Ok(cell_id(number)),
            Probe::Empty(slot) => {
                let number = self.cells.len() as u32;
                if number == self.limit {
                    return Err(Full);
                }
                self.slots[slot] = number;
                self.fingerprints[slot] = fingerprint_of(hash);
                self.cells.push_reserved(cell);
                make_room(
                    self.cells.as_slice(),
                    &mut self.slots,
                    &mut self.fingerprints,
                    most(self.limit),
                );
                Ok(cell_id(number))
            }
        }
    }

    /// The id of an integer. Full exactly where it is not held and there is no cell left.
    pub fn int(&mut self, i: i128) -> Result<Id, Full>
        ensures interns { Interns self.old self.new (Int i) result }
    {
        self.enter(Cell::Int(i))
    }

    /// The id of a character. Full exactly where it is not held and there is no cell left.
    pub fn character(&mut self, code: u8) -> Result<Id, Full>
        ensures interns { Interns self.old self.new (Character code) result }
    {
        self.enter(Cell::Character(code))
    }

    /// The id of the cons of two objects. Full exactly where it is not held and there is no cell left.
    pub fn cons(&mut self, a: Id, d: Id) -> Result<Id, Full>
        requires first { IsLive self.old.objects a }
        requires rest { IsLive self.old.objects d }
        ensures interns { Interns self.old self.new (Cons (object_at self.old.objects a) (object_at self.old.objects d)) result }
    {
        self.enter(of_parts(a, d))
    }

    /// The id of the symbol of a text.
    pub fn symbol(&self, t: TextId) -> Id
        ensures { IsIdOf self.now.objects (Symbol t.number) result }
    {
        Id::Symbol(t)
    }

    /// The id of the string of a text.
    pub fn string(&self, t: TextId) -> Id
        ensures { IsIdOf self.now.objects (Text t.number) result }
    {
        Id::Text(t)
    }

    /// Whether an id stands for something here.
    pub fn is_live(&self, id: Id) -> bool
        ensures live { IsTrue result ↔ IsLive self.now.objects id }
        ensures whole { IsWhole self.now }
    {
        let count = u64::from(self.count());
        match id {
            Id::Cell(number) => number < count,
            _ => true,
        }
    }

    /// What a cell keeps.
    fn cell(&self, number: u64) -> Cell
        requires { number < length self.now.objects }
        ensures object { cell_object self.now.objects result ≡ slice_index_or self.now.objects number nil }
        ensures parts { FitsBelow (length self.now.objects) result }
    {
        self.cells[number as usize]
    }

    /// What an object is.
    pub fn kind(&self, id: Id) -> Kind
        requires { IsLive self.now.objects id }
        ensures { result ≡ kind_of (object_at self.now.objects id) }
    {
        match id {
            Id::Symbol(t) => Kind::Symbol(t),
            Id::Text(t) => Kind::Text(t),
            Id::Cell(number) => kind_of_cell(self.cell(number)),
        }
    }

    /// The ids of the two parts of a cons.
    pub(crate) fn parts(&self, id: Id) -> Option<(Id, Id)>
        requires { IsLive self.now.objects id }
        ensures { MatchOption result (HasNoParts (object_at self.now.objects id)) (λ p. ArePartsOf self.now.objects (object_at self.now.objects id) p.0 p.1) }
    {
        match id {
            Id::Cell(number) => parts_of_cell(self.cell(number)),
            _ => None,
        }
    }

    /// The first part of a cons, NIL for any other object.
    pub fn car(&self, id: Id) -> Id
        requires { IsLive self.now.objects id }
        ensures { IsIdOf self.now.objects (car (object_at self.now.objects id)) result }
    {
        match self.parts(id) {
            Some((first, _)) => first,
            None => Id::default(),
        }
    }

    /// The second part of a cons, NIL for any other object.
    pub fn cdr(&self, id: Id) -> Id
        requires { IsLive self.now.objects id }
        ensures { IsIdOf self.now.objects (cdr (object_at self.now.objects id)) result }
    {
        match self.parts(id) {
            Some((_, rest)) => rest,
            None => Id::default(),
        }
    }

    /// Whether two objects are equal: exactly where their ids are.
    pub fn same(&self, a: Id, b: Id) -> bool
        requires a { IsLive self.now.objects a }
        requires b { IsLive self.now.objects b }
        ensures objects { IsTrue result ↔ (object_at self.now.objects a ≡ object_at self.now.objects b) }
        ensures ids { IsTrue result ↔ (a ≡ b) }
    {
        let both_live = self.is_live(a) && self.is_live(b);
        prove!(both_live);
        same_id(a, b)
    }

    /// The count of cells now.
    pub fn mark(&self) -> Mark
        ensures count { result.count ≡ length self.now.objects }
        ensures whole { IsWhole self.now }
    {
        Mark {
            count: self.count(),
        }
    }

    /// Takes the newest cell out of the slot table, and then away.
    fn remove_newest(&mut self)
        requires { 0 < length self.old.objects }
        ensures objects { self.new.objects ≡ take (length self.old.objects - 1) self.old.objects }
        ensures limit { self.new.limit ≡ self.old.limit }
    {
        let newest = self.cells.len() - 1;
        let home = home(hash(self.cells[newest]), self.slots.len());
        let slot = slot_with(self.slots.as_slice(), home, newest as u32);
        self.slots[slot] = EMPTY;
        self.fingerprints[slot] = FREE;
        self.cells.truncate(newest);
    }

    /// Takes away the cells made after the mark, from the last to the first. The cells made before it stay with
    /// their ids.
    pub fn release(&mut self, mark: Mark)
        requires { mark.count ≤ length self.old.objects }
        ensures objects { self.new.objects ≡ take mark.count self.old.objects }
        ensures limit { self.new.limit ≡ self.old.limit }
        ensures ids { (id : Id) → IsBelow mark.count id → IsIdOf self.new.objects (object_at self.old.objects id) id }
    {
        while self.count() > mark.count {
            self.remove_newest();
        }
    }
}

fn kind_of_cell(cell: Cell) -> Kind
    ensures { (objects : List Object) → result ≡ kind_of (cell_object objects cell) }
{
    match cell {
        Cell::Int(i) => Kind::Int(i),
        Cell::Character(code) => Kind::Character(code),
        Cell::Cons(..) => Kind::Cons,
    }
}

fn cell_id(number: u32) -> Id
    ensures { result ≡ Id.Cell number }
{
    Id::Cell(u64::from(number))
}
