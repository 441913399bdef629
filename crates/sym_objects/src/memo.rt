//! What a call has done already.

ghost use Rattle.std.specs.Prelude.{◌≡◌, [], OnOk, IfSome, Contains};
ghost use Rattle.std.specs.Cmp.{partial_equiv_from_equiv};
ghost use Rattle.sym_objects.specs.Keys.{key_eq, key_fed, key_equiv, key_alike};
ghost use Rattle.sym_objects.specs.Memos.{IsPut};

use gl_logic::NoMemory;
use indexmap::IndexMap;
use std::alloc::Global;
use std::hash::{Hash, Hasher};
use std::marker::Model;

/// Two numbers by which a value is kept.
#[derive(Clone, Copy)]
pub struct Key {
    pub first: u64,
    pub second: u64,
}

impl PartialEq for Key {
    ghost eq = { key_eq };

    ghost laws = { partial_equiv_from_equiv key_equiv };

    fn eq(&self, other: &Key) -> bool {
        self.first == other.first && self.second == other.second
    }
}

impl Eq for Key {
    ghost laws = { key_equiv };
}

impl Hash for Key {
    ghost hash_input = { key_fed };

    ghost respects_eq = { key_alike.fed };

    fn hash<H: Hasher>(&self, state: &mut H) {
        state.write_u64(self.first);
        state.write_u64(self.second);
    }
}

/// The values that a call has found, by their keys. Contracts see the list of keys and values.
#[derive(Drop)]
pub struct Memo<V> {
    entries: IndexMap<Key, V>,
}

impl<V> Model for Memo<V> {
    ghost use Rattle.std.specs.Prelude.{List};
    ghost use Rattle.sym_objects.specs.declared.memo.Key.{Key as KeySeen};

    ghost Value = { List (KeySeen × V) };

    ghost view = { λ m. m.entries.entries };
}

impl<V> Memo<V> {
    /// No values. Takes no memory.
    pub fn new(alloc: Global) -> Memo<V>
        ensures { result ≡ [] }
    {
        Memo {
            entries: IndexMap::new(alloc),
        }
    }
}

impl<V: Copy + Drop> Memo<V> {
    /// The value of a key, where it is kept.
    pub fn look(&self, key: Key) -> Option<V>
        ensures { IfSome result (λ v. Contains self.now (key, v)) }
    {
        self.entries.get(&key).copied()
    }

    /// Keeps the value of a key.
    pub fn keep(&mut self, key: Key, value: V) -> Result<(), NoMemory>
        ensures { OnOk result (IsPut self.old self.new key value) }
    {
        self.entries.insert(key, value)?;
        Ok(())
    }
}
