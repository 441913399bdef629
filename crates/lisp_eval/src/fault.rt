//! Why a term has no value here.

ghost use Rattle.std.specs.Prelude.{◌≡◌};
ghost use Rattle.lisp_eval.specs.Answers.{fault_of};
ghost use Rattle.lisp_eval.specs.declared.fault.EvalFault.TheVariants as fault;

use crate::halt::Cause;
use gl_logic::NoMemory;
use hons_arena::Full;
use std::alloc::AllocFailed;

/// Why a term has no value here.
#[derive(Clone, Copy, Debug, PartialEq, Eq)]
pub enum EvalFault {
    /// A value on the way is an integer outside -2^127 to 2^127 - 1.
    Width,
    /// More subterms would be visited than the limit allows.
    Steps,
    /// The arena has no cell left.
    Cells,
    /// Memory was refused.
    Memory,
}

impl From<NoMemory> for EvalFault {
    ghost from_gives = { λ _ e. e ≡ fault.Memory };

    fn from(_error: NoMemory) -> EvalFault {
        EvalFault::Memory
    }
}

impl<T: Drop> From<AllocFailed<T>> for EvalFault {
    ghost from_gives = { λ _ e. e ≡ fault.Memory };

    fn from(_error: AllocFailed<T>) -> EvalFault {
        EvalFault::Memory
    }
}

impl From<Full> for EvalFault {
    ghost from_gives = { λ _ e. e ≡ fault.Cells };

    fn from(_full: Full) -> EvalFault {
        EvalFault::Cells
    }
}

/// A cause as a fault.
pub fn fault_for(cause: Cause) -> EvalFault
    ensures { result ≡ fault_of cause }
{
    match cause {
        Cause::Width => EvalFault::Width,
        Cause::Steps => EvalFault::Steps,
        Cause::Cells => EvalFault::Cells,
    }
}
