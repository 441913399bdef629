//! The table of one list: its first pair for each key.

ghost use Rattle.std.specs.Prelude.{◌≡◌, [], OnOk, OnErr};
ghost use Rattle.fast_alists.specs.Tables.{pair_in, PutsPair};

use gl_logic::NoMemory;
use hons_arena::{HashedId, Id};
use indexmap::IndexMap;
use std::alloc::Global;
use std::marker::Model;

/// The first pairs of a list by their keys. Contracts see the ids of keys and pairs.
#[derive(Drop)]
pub struct Table {
    pairs: IndexMap<HashedId, Id>,
}

impl Model for Table {
    ghost use Rattle.std.specs.Prelude.{List};
    ghost use Rattle.hons_arena.specs.declared.id.Id.{Id as IdSeen};

    ghost Value = { List (IdSeen × IdSeen) };

    ghost view = { λ t. t.pairs.entries };
}

impl Table {
    /// The table of a list with no pair. Takes no memory.
    pub fn new(alloc: Global) -> Table
        ensures { result ≡ [] }
    {
        Table {
            pairs: IndexMap::new(alloc),
        }
    }

    /// The pair with a key.
    pub fn pair(&self, key: Id) -> Option<Id>
        ensures { result ≡ pair_in self.now key }
    {
        self.pairs.get(&HashedId { id: key }).copied()
    }

    /// Puts a pair in the place of any other with its key.
    pub fn put(&mut self, key: Id, pair: Id) -> Result<(), NoMemory>
        ensures ok { OnOk result (PutsPair self.old self.new key pair) }
        ensures err { OnErr result (self.new ≡ self.old) }
    {
        self.pairs.insert(HashedId { id: key }, pair)?;
        Ok(())
    }
}
