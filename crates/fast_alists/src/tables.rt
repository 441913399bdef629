//! Which list has which table.

ghost use Rattle.std.specs.Prelude.{◌≡◌, List, [], true, false, None, Some, IfOk, OnOk, OnErr};
ghost use Rattle.std.specs.Option.{option_copied};
ghost use Rattle.gl_logic.specs.Object.{Object};
ghost use Rattle.fast_alists.specs.Latest.{in_front, HandsOn, SameTables};
ghost use Rattle.fast_alists.specs.Tables.{Agree, IsTable, SetsTable, table_in};

use crate::table::Table;
use gl_logic::NoMemory;
use hons_arena::{HashedId, Id};
use indexmap::IndexMap;
use std::alloc::Global;
use std::marker::Model;

/// The table that was kept last, and its list.
#[derive(Drop)]
struct Latest {
    list: HashedId,
    table: Table,
}

/// The tables of lists. The one that was kept last stands by itself, since an extension mostly asks for it next.
/// Contracts see each list that has a table, with the table.
#[derive(Drop)]
pub struct Tables {
    latest: Option<Latest>,
    others: IndexMap<HashedId, Table>,
}

impl Model for Tables {
    ghost use Rattle.std.specs.Prelude.{List};
    ghost use Rattle.hons_arena.specs.declared.id.Id.{Id as IdSeen};
    ghost use Rattle.fast_alists.specs.Latest.{in_front, OthersLack};

    ghost Value = { List (IdSeen × List (IdSeen × IdSeen)) };

    ghost view = { λ t. in_front t.latest t.others.entries };

    ghost invariant = { λ t. OthersLack t.latest t.others.entries };
}

impl Tables {
    /// No tables. Takes no memory.
    pub fn new(alloc: Global) -> Tables
        ensures { result ≡ [] }
    {
        Tables {
            latest: None,
            others: IndexMap::new(alloc),
        }
    }

    /// The table of a list.
    pub fn get(&self, list: Id) -> Option<&Table>
        ensures { option_copied result ≡ table_in self.now list }
    {
        let key = HashedId { id: list };
        match &self.latest {
            Some(latest) if key == latest.list => Some(&latest.table),
            _ if self.others.is_empty() => None,
            _ => self.others.get(&key),
        }
    }

    /// Takes the table of a list out. Nothing is hashed for that of the latest list, or where there are no others.
    pub fn take(&mut self, list: Id) -> Option<Table>
        ensures table { result ≡ table_in self.old list }
        ensures sets { SetsTable self.old self.new list None }
    {
        let key = HashedId { id: list };
        match &self.latest {
            Some(latest) if key == latest.list => self.latest.take().map(|latest| latest.table),
            _ if self.others.is_empty() => None,
            _ => self.others.swap_remove(&key),
        }
    }

    /// Puts a table in the place of any other of its list. After a refusal some tables may be gone.
    pub fn keep(&mut self, list: Id, table: Table) -> Result<(), NoMemory>
        ensures sets { OnOk result (SetsTable self.old self.new list (Some table)) }
        ensures agree { (objects : List Object) → IsTable objects list table → Agree objects self.old → Agree objects self.new }
    {
        self.take(list);
        let before = self.latest.take();
        put_among(&mut self.others, before)?;
        self.latest = Some(Latest {
            list: HashedId { id: list },
            table,
        });
        Ok(())
    }

    /// Puts a pair into the table of a list and makes it the longer list's, in its place: true. False, with nothing
    /// changed, where the list is not the one whose table was kept last. After a refusal all is as before.
    #[inline(always)]
    pub fn hand_on(&mut self, list: Id, longer: Id, key: Id, pair: Id) -> Result<bool, NoMemory>
        ensures handed { IfOk result (λ handed. handed ≡ true → HandsOn self.old self.new list longer key pair) }
        ensures other { IfOk result (λ handed. handed ≡ false → self.new ≡ self.old) }
        ensures err { OnErr result (self.new ≡ self.old) }
    {
        let shorter = HashedId { id: list };
        let longer = HashedId { id: longer };
        match &mut self.latest {
            Some(latest) if shorter == latest.list => {
                latest.table.put(key, pair)?;
                latest.list = longer;
            }
            _ => return Ok(false),
        }
        drop_among(&mut self.others, longer);
        Ok(true)
    }

    /// Drops all tables.
    pub fn clear(&mut self)
        ensures { self.new ≡ [] }
    {
        self.latest = None;
        self.others.clear();
    }
}

/// Puts the table that was kept last among the others, which stay as they are after a refusal.
fn put_among(others: &mut IndexMap<HashedId, Table>, latest: Option<Latest>) -> Result<(), NoMemory>
    ensures ok { OnOk result (SameTables (in_front latest others.old.entries) others.new.entries) }
    ensures err { OnErr result (others.new.entries ≡ others.old.entries) }
{
    if let Some(before) = latest {
        others.insert(before.list, before.table)?;
    }
    Ok(())
}

/// Drops the table that the others have of a list. Nothing is hashed where there are no others.
fn drop_among(others: &mut IndexMap<HashedId, Table>, list: HashedId)
    ensures { SetsTable others.old.entries others.new.entries list None }
{
    if !others.is_empty() {
        others.swap_remove(&list);
    }
}
