//! What is read from a list itself.

ghost use Rattle.std.specs.Prelude.{◌≡◌, IfOk, IfSome, OnOk, MatchOption};
ghost use Rattle.std.specs.Option.{option_map};
ghost use Rattle.gl_logic.specs.Lists.{IsAtom};
ghost use Rattle.hons_arena.specs.Ids.{object_at, IsLive};
ghost use Rattle.fast_alists.specs.Alists.{pair_object, has_key};
ghost use Rattle.fast_alists.specs.Tables.{IsTable, HasParts, Notes};

use crate::table::Table;
use gl_logic::NoMemory;
use hons_arena::{HonsArena, Id, Kind};
use std::alloc::Global;

/// The ids of the two parts of a cons.
pub fn parts(arena: &HonsArena, id: Id) -> Option<(Id, Id)>
    requires { IsLive arena.now.objects id }
    ensures { MatchOption result (IsAtom (object_at arena.now.objects id)) (HasParts arena.now.objects id) }
{
    match arena.kind(id) {
        Kind::Cons => Some((arena.car(id), arena.cdr(id))),
        _ => None,
    }
}

/// The first pair of a list with a key, found by walking the list.
pub fn first_pair(arena: &HonsArena, key: Id, alist: Id) -> Option<Id>
    requires key { IsLive arena.now.objects key }
    requires alist { IsLive arena.now.objects alist }
    ensures pair { option_map (object_at arena.now.objects) result ≡ pair_object arena.now.objects key alist }
    ensures live { IfSome result (λ p. IsLive arena.now.objects p) }
{
    let mut list = alist;
    while let Some((element, rest)) = parts(arena, list) {
        if has_key(arena, element, key) {
            return Some(element);
        }
        list = rest;
    }
    None
}

/// Whether an element of a list is a pair with this key.
fn has_key(arena: &HonsArena, element: Id, key: Id) -> bool
    requires key { IsLive arena.now.objects key }
    requires element { IsLive arena.now.objects element }
    ensures { result ≡ has_key (object_at arena.now.objects key) (object_at arena.now.objects element) }
{
    match parts(arena, element) {
        Some((first, _)) => arena.same(key, first),
        None => false,
    }
}

/// The table of a list.
pub fn table_of(alloc: Global, arena: &HonsArena, alist: Id) -> Result<Table, NoMemory>
    requires { IsLive arena.now.objects alist }
    ensures { IfOk result (λ t. IsTable arena.now.objects alist t) }
{
    let mut table = Table::new(alloc);
    let mut list = alist;
    while let Some((element, rest)) = parts(arena, list) {
        note(arena, &mut table, element)?;
        list = rest;
    }
    Ok(table)
}

/// Puts an element into a table that lacks its key, if it is a pair.
fn note(arena: &HonsArena, table: &mut Table, element: Id) -> Result<(), NoMemory>
    requires { IsLive arena.now.objects element }
    ensures { OnOk result (Notes arena.now.objects element table.old table.new) }
{
    let is_live = arena.is_live(element);
    prove!(is_live);
    match parts(arena, element) {
        None => Ok(()),
        Some((key, _)) => match table.pair(key) {
            Some(_) => Ok(()),
            None => table.put(key, element),
        },
    }
}
