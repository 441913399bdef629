//! Why a form means no term.

ghost use Rattle.std.specs.Prelude.{◌≡◌};

use gl_logic::NoMemory;
use std::alloc::{AllocError, AllocFailed};

/// Why a form means no term.
#[derive(Clone, Copy, Debug, PartialEq, Eq)]
pub enum TermFault {
    /// V4: the head of a form is no macro, no primitive and no definition.
    UnknownFunction,
    /// V5: a form has another count of arguments than its head takes.
    WrongCount,
    /// V6: a symbol is no constant and no variable in scope.
    UnboundVariable,
    /// V7: a form is malformed: no proper list, a head that is no symbol, a bad clause or binding.
    BadUse,
    /// V12: a form stands inside 2,000 others.
    TooDeep,
    /// Memory was refused.
    Memory,
}

impl From<NoMemory> for TermFault {
    ghost use Rattle.gl_translate.specs.declared.fault.TermFault.TheVariants.{Memory};

    ghost from_gives = { λ _ e. e ≡ Memory };

    fn from(_error: NoMemory) -> TermFault {
        TermFault::Memory
    }
}

impl From<AllocError> for TermFault {
    ghost use Rattle.gl_translate.specs.declared.fault.TermFault.TheVariants.{Memory};

    ghost from_gives = { λ _ e. e ≡ Memory };

    fn from(_error: AllocError) -> TermFault {
        TermFault::Memory
    }
}

impl<T: Drop> From<AllocFailed<T>> for TermFault {
    ghost use Rattle.gl_translate.specs.declared.fault.TermFault.TheVariants.{Memory};

    ghost from_gives = { λ _ e. e ≡ Memory };

    fn from(_error: AllocFailed<T>) -> TermFault {
        TermFault::Memory
    }
}
