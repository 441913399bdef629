//! A call of a function with its arguments.

ghost use Rattle.std.specs.Prelude.{◌≡◌, ◌≤◌, length, IfOk, IsOk};
ghost use Rattle.std.specs.Cmp.{partial_equiv_from_equiv};
ghost use Rattle.memo_tables.specs.Keys.{call_eq, call_fed, call_equiv, call_alike};

use gl_logic::{FnId, NoMemory};
use hons_arena::{HashedId, Id};
use smallvec::SmallVec;
use std::alloc::Global;
use std::hash::{Hash, Hasher};
use std::marker::Model;

/// How many arguments lie in a call itself.
const PLACES: usize = 4;

/// A call of a function with the ids of its arguments, up to four of them in places of its own. Contracts see the
/// function's number and the ids.
#[derive(Drop)]
pub struct MemoCall {
    function: u64,
    arguments: SmallVec<HashedId, PLACES>,
}

impl Model for MemoCall {
    ghost use Rattle.memo_tables.specs.Calls.{Call};

    ghost Value = { Call };

    ghost view = { λ c. record { function = c.function; arguments = c.arguments.items } };
}

impl MemoCall {
    /// The call of a function with these arguments. At most four arguments are never refused.
    pub fn of(alloc: Global, f: FnId, args: &[Id]) -> Result<MemoCall, NoMemory>
        ensures call { IfOk result (λ c. c ≡ record { function = f.number; arguments = args.now }) }
        ensures few { length args.now ≤ 4 → IsOk result }
    {
        let mut arguments = SmallVec::with_capacity(alloc, args.len())?;
        for id in args {
            arguments.push_reserved(HashedId { id: *id });
        }
        Ok(MemoCall {
            function: f.number,
            arguments,
        })
    }
}

/// Two calls are equal exactly where their functions and all of their arguments are.
impl PartialEq for MemoCall {
    ghost eq = { call_eq };

    ghost laws = { partial_equiv_from_equiv call_equiv };

    fn eq(&self, other: &MemoCall) -> bool {
        self.function == other.function && self.arguments == other.arguments
    }
}

impl Eq for MemoCall {
    ghost laws = { call_equiv };
}

impl Hash for MemoCall {
    ghost hash_input = { call_fed };

    ghost respects_eq = { call_alike.fed };

    fn hash<H: Hasher>(&self, state: &mut H) {
        state.write_u64(self.function);
        self.arguments.hash(state);
    }
}
