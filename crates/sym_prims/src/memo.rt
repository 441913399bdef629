//! The answers of a call's applications.

ghost use Rattle.std.specs.Prelude.{◌≡◌, [], OnOk, IfSome, Contains};
ghost use Rattle.std.specs.Cmp.{partial_equiv_from_equiv};
ghost use Rattle.sym_prims.specs.Keys.{key_alike, key_eq, key_equiv, key_fed, key_of};
ghost use Rattle.sym_prims.specs.Puts.{IsPut};

use super::frames::Task;
use gl_logic::NoMemory;
use indexmap::IndexMap;
use std::alloc::Global;
use std::hash::{Hash, Hasher};
use std::marker::Model;
use sym_objects::Sob;

/// What stands for an application: the numbers of its objects and of its path.
#[derive(Clone, Copy)]
pub struct Key {
    pub first: u64,
    pub second: u64,
    pub path: u64,
}

impl PartialEq for Key {
    ghost eq = { key_eq };

    ghost laws = { partial_equiv_from_equiv key_equiv };

    fn eq(&self, other: &Key) -> bool {
        self.first == other.first && self.second == other.second && self.path == other.path
    }
}

impl Eq for Key {
    ghost laws = { key_equiv };
}

impl Hash for Key {
    ghost hash_input = { key_fed };

    ghost respects_eq = { key_alike.fed };

    fn hash<H: Hasher>(&self, state: &mut H) {
        state.write_u64(self.first);
        state.write_u64(self.second);
        state.write_u64(self.path);
    }
}

/// The key of an application.
pub fn key_of(task: Task) -> Key
    ensures { result ≡ key_of task }
{
    Key {
        first: u64::from(task.first.number),
        second: u64::from(task.second.number),
        path: u64::from(task.path.number),
    }
}

/// The answers of applications that are done, each found in constant time. Contracts see the list of keys and answers.
#[derive(Drop)]
pub struct Memo {
    answers: IndexMap<Key, Sob>,
}

impl Model for Memo {
    ghost use Rattle.std.specs.Prelude.{List};
    ghost use Rattle.sym_prims.specs.declared.memo.Key.{Key as KeySeen};
    ghost use Rattle.sym_objects.specs.declared.sob.Sob.{Sob as SobSeen};

    ghost Value = { List (KeySeen × SobSeen) };

    ghost view = { λ m. m.answers.entries };
}

impl Memo {
    /// No answer. Takes no memory.
    pub fn new(alloc: Global) -> Memo
        ensures { result ≡ [] }
    {
        Memo {
            answers: IndexMap::new(alloc),
        }
    }

    /// The answer of a key, where it is kept.
    pub fn look(&self, key: Key) -> Option<Sob>
        ensures { IfSome result (λ r. Contains self.now (key, r)) }
    {
        self.answers.get(&key).copied()
    }

    /// Keeps the answer of a key.
    pub fn keep(&mut self, key: Key, answer: Sob) -> Result<(), NoMemory>
        ensures { OnOk result (IsPut self.old self.new key answer) }
    {
        self.answers.insert(key, answer)?;
        Ok(())
    }
}
