//! The tables of kept calls.

ghost use Rattle.std.specs.Prelude.{◌≡◌, ◌↔◌, [], ◌∷◌, ◌++◌, IfOk, IfSome, IsNone, OnOk, OnErr};
ghost use Rattle.memo_tables.specs.Calls.{IsKept, IsKeptAs, IsEachOnce};

use crate::call::MemoCall;
use gl_logic::NoMemory;
use hons_arena::Id;
use indexmap::IndexMap;
use std::alloc::Global;
use std::marker::Model;

/// For how many calls there is room from the start.
const FIRST_ROOM: usize = 16;

/// Kept calls with their values, each found in constant time by its function and all of its arguments. Contracts
/// see the list of the kept calls, each with its value, in the order of their keeping.
#[derive(Drop)]
pub struct MemoTables {
    kept: IndexMap<MemoCall, Id>,
}

impl Model for MemoTables {
    ghost use Rattle.std.specs.Prelude.{List};
    ghost use Rattle.hons_arena.specs.declared.id.Id.{Id as IdSeen};
    ghost use Rattle.memo_tables.specs.Calls.{Call, IsEachOnce};

    ghost Value = { List (Call × IdSeen) };

    ghost view = { λ t. t.kept.entries };

    ghost invariant = { λ t. IsEachOnce t.kept.entries };
}

impl MemoTables {
    /// Tables with no call.
    pub fn new(alloc: Global) -> Result<MemoTables, NoMemory>
        ensures { IfOk result (λ t. t ≡ []) }
    {
        Ok(MemoTables {
            kept: IndexMap::with_capacity(alloc, FIRST_ROOM)?,
        })
    }

    /// The value that a call is kept with. None exactly where the call is not kept.
    pub fn look(&self, call: &MemoCall) -> Option<Id>
        ensures kept { IfSome result (λ v. IsKeptAs self.now call.now v) }
        ensures none { IsNone result ↔ ¬ IsKept self.now call.now }
        ensures once { IsEachOnce self.now }
    {
        self.kept.get(call).copied()
    }

    /// Keeps a call, with its value, beside all that was kept.
    pub fn keep(&mut self, call: MemoCall, value: Id) -> Result<(), NoMemory>
        requires { ¬ IsKept self.old call }
        ensures kept { OnOk result (self.new ≡ self.old ++ (call, value) ∷ []) }
        ensures err { OnErr result (self.new ≡ self.old) }
    {
        self.kept.insert(call, value)?;
        Ok(())
    }

    /// Forgets every call.
    pub fn clear(&mut self)
        ensures { self.new ≡ [] }
    {
        self.kept.clear();
    }
}
