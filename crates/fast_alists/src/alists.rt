//! The tables of lists.

ghost use Rattle.std.specs.Prelude.{◌≡◌, List, [], None, IfOk, IfSome, IsSome};
ghost use Rattle.std.specs.Option.{option_map};
ghost use Rattle.gl_logic.specs.Lists.{IsAtom};
ghost use Rattle.gl_logic.specs.Object.{Object};
ghost use Rattle.hons_arena.specs.Held.{IsWhole};
ghost use Rattle.hons_arena.specs.Ids.{object_at, IsLive};
ghost use Rattle.fast_alists.specs.Alists.{pair_object, forked_object};
ghost use Rattle.fast_alists.specs.Tables.{Agree, HasTable, IsTable, SetsTable, TakesOver};
ghost use Rattle.fast_alists.specs.Longer.{IsLonger, longer_object};
ghost use Rattle.fast_alists.specs.Makes.{Makes};

use crate::extend::{Longer, extend};
use crate::fault::AlistFault;
use crate::fork::fork_onto;
use crate::table::Table;
use crate::tables::Tables;
use crate::walk::{first_pair, parts, table_of};
use gl_logic::NoMemory;
use hons_arena::{HonsArena, Id};
use std::alloc::Global;
use std::marker::Model;

/// The tables of lists in an arena. A table belongs to one list; an extension of the list takes the table over, and
/// the older list is answered by itself from then on. Contracts see each list that has a table, with the table.
#[derive(Drop)]
pub struct FastAlists {
    alloc: Global,
    tables: Tables,
}

impl Model for FastAlists {
    ghost use Rattle.std.specs.Prelude.{List};
    ghost use Rattle.hons_arena.specs.declared.id.Id.{Id as IdSeen};

    ghost Value = { List (IdSeen × List (IdSeen × IdSeen)) };

    ghost view = { λ f. f.tables };
}

impl FastAlists {
    /// No tables.
    pub fn new(alloc: Global) -> Result<FastAlists, NoMemory>
        ensures none { IfOk result (λ f. f ≡ []) }
        ensures agree { IfOk result (λ f. (objects : List Object) → Agree objects f) }
    {
        Ok(FastAlists {
            alloc,
            tables: Tables::new(alloc),
        })
    }

    /// The list with a pair of this key and value in front. The table of the list, if it has one, goes over to it. An
    /// extension of a list without elements has a table in any case.
    ///
    /// After a refusal each look-up answers as before, though the list may have lost its table.
    pub fn acons(
        &mut self,
        arena: &mut HonsArena,
        key: Id,
        value: Id,
        alist: Id,
    ) -> Result<Id, AlistFault>
        requires agree { Agree arena.old.objects self.old }
        requires key { IsLive arena.old.objects key }
        requires value { IsLive arena.old.objects value }
        requires alist { IsLive arena.old.objects alist }
        ensures makes { Makes arena.old arena.new (longer_object arena.old.objects key value alist) result }
        ensures agree { Agree arena.new.objects self.new }
        ensures table { TakesOver self.old self.new alist result }
        ensures begins { IsAtom (object_at arena.old.objects alist) → IfOk result (HasTable self.new) }
    {
        let longer = extend(arena, key, value, alist)?;
        Ok(self.go_over(arena, key, alist, longer)?)
    }

    /// The first pair of the list with this key. None exactly where no element of the list is a pair with this key.
    pub fn get(&self, arena: &HonsArena, key: Id, alist: Id) -> Option<Id>
        requires agree { Agree arena.now.objects self.now }
        requires key { IsLive arena.now.objects key }
        requires alist { IsLive arena.now.objects alist }
        ensures pair { option_map (object_at arena.now.objects) result ≡ pair_object arena.now.objects key alist }
        ensures live { IfSome result (λ p. IsLive arena.now.objects p) }
    {
        let key_is_live = arena.is_live(key);
        prove!(key_is_live);
        match self.tables.get(alist) {
            Some(table) => table.pair(key),
            None => first_pair(arena, key, alist),
        }
    }

    /// The list with each pair of another in turn put in front whose key no pair has by then, as `fast-alist-fork`
    /// does. It has a table, into which that of the list before goes over.
    ///
    /// After a refusal each look-up answers as before, though the list may have lost its table.
    pub fn fork(&mut self, arena: &mut HonsArena, alist: Id, ans: Id) -> Result<Id, AlistFault>
        requires agree { Agree arena.old.objects self.old }
        requires alist { IsLive arena.old.objects alist }
        requires ans { IsLive arena.old.objects ans }
        ensures makes { Makes arena.old arena.new (forked_object arena.old.objects alist ans) result }
        ensures agree { Agree arena.new.objects self.new }
        ensures table { IfOk result (HasTable self.new) }
    {
        let mut table = self.table_for(arena, ans)?;
        let forked = fork_onto(arena, &mut table, alist, ans)?;
        self.tables.keep(forked, table)?;
        Ok(forked)
    }

    /// Drops the table of a list. What the list answers stays.
    pub fn free(&mut self, alist: Id)
        ensures dropped { SetsTable self.old self.new alist None }
        ensures agree { (objects : List Object) → Agree objects self.old → Agree objects self.new }
    {
        self.tables.take(alist);
    }

    /// Drops all tables.
    pub fn clear(&mut self)
        ensures none { self.new ≡ [] }
        ensures agree { (objects : List Object) → Agree objects self.new }
    {
        self.tables.clear();
    }

    /// The table that goes over to an extension of the list.
    fn table_to_extend(&mut self, arena: &HonsArena, alist: Id) -> Option<Table>
        requires agree { Agree arena.now.objects self.old }
        requires alist { IsLive arena.now.objects alist }
        ensures table { IfSome result (λ t. IsTable arena.now.objects alist t) }
        ensures agree { Agree arena.now.objects self.new }
        ensures taken { HasTable self.old alist → IsSome result }
        ensures made { IsAtom (object_at arena.now.objects alist) → IsSome result }
        ensures left { ¬ HasTable self.new alist }
    {
        match self.tables.take(alist) {
            Some(table) => Some(table),
            None => match parts(arena, alist) {
                Some(_) => None,
                None => Some(Table::new(self.alloc)),
            },
        }
    }

    /// The table of a list, taken out or made.
    fn table_for(&mut self, arena: &HonsArena, alist: Id) -> Result<Table, NoMemory>
        requires agree { Agree arena.now.objects self.old }
        requires alist { IsLive arena.now.objects alist }
        ensures table { IfOk result (λ t. IsTable arena.now.objects alist t) }
        ensures agree { Agree arena.now.objects self.new }
    {
        match self.tables.take(alist) {
            Some(table) => Ok(table),
            None => table_of(self.alloc, arena, alist),
        }
    }

    /// The table of a list goes over to an extension of it.
    fn go_over(
        &mut self,
        arena: &HonsArena,
        key: Id,
        alist: Id,
        longer: Longer,
    ) -> Result<Id, NoMemory>
        requires agree { Agree arena.now.objects self.old }
        requires whole { IsWhole arena.now }
        requires longer { IsLonger arena.now.objects key alist longer }
        ensures list { IfOk result (λ id. id ≡ longer.list) }
        ensures agree { Agree arena.now.objects self.new }
        ensures table { TakesOver self.old self.new alist result }
        ensures begins { IsAtom (object_at arena.now.objects alist) → IfOk result (HasTable self.new) }
    {
        if self.tables.hand_on(alist, longer.list, key, longer.pair)? {
            return Ok(longer.list);
        }
        match self.table_to_extend(arena, alist) {
            None => Ok(longer.list),
            Some(mut table) => {
                table.put(key, longer.pair)?;
                self.tables.keep(longer.list, table)?;
                Ok(longer.list)
            }
        }
    }
}
