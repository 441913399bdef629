//! Why the evaluator's loop ends without a value.

ghost use Rattle.std.specs.Prelude.{◌≡◌};
ghost use Rattle.lisp_eval.specs.Turns.{halt_of_table, halt_of_primitive};
ghost use Rattle.lisp_eval.specs.declared.halt.Halt.TheVariants as halt;

use crate::primitives::PrimFault;
use fast_alists::AlistFault;
use gl_logic::NoMemory;
use std::alloc::AllocFailed;

/// Why an evaluation stops without a value.
#[derive(Clone, Copy, Debug, PartialEq, Eq)]
pub enum Cause {
    /// A value on the way is an integer outside -2^127 to 2^127 - 1.
    Width,
    /// More subterms would be visited than the limit allows.
    Steps,
    /// The arena has no cell left.
    Cells,
}

/// Why the loop ends without a value.
#[derive(Clone, Copy, Debug, PartialEq, Eq)]
pub enum Halt {
    /// The evaluation stops for a cause that callers can act on.
    Stop(Cause),
    /// Memory was refused.
    Memory,
}

impl From<NoMemory> for Halt {
    ghost from_gives = { λ _ h. h ≡ halt.Memory };

    fn from(_error: NoMemory) -> Halt {
        Halt::Memory
    }
}

impl<T: Drop> From<AllocFailed<T>> for Halt {
    ghost from_gives = { λ _ h. h ≡ halt.Memory };

    fn from(_error: AllocFailed<T>) -> Halt {
        Halt::Memory
    }
}

impl From<PrimFault> for Halt {
    ghost from_gives = { λ fault h. h ≡ halt_of_primitive fault };

    fn from(fault: PrimFault) -> Halt {
        match fault {
            PrimFault::Wide => Halt::Stop(Cause::Width),
            PrimFault::Full => Halt::Stop(Cause::Cells),
        }
    }
}

impl From<AlistFault> for Halt {
    ghost from_gives = { λ fault h. h ≡ halt_of_table fault };

    fn from(fault: AlistFault) -> Halt {
        match fault {
            AlistFault::Full => Halt::Stop(Cause::Cells),
            AlistFault::Memory => Halt::Memory,
        }
    }
}
