//! Faults of a parametrisation.

ghost use Rattle.std.specs.Prelude.{◌≡◌};
ghost use Rattle.bdd_param.specs.declared.fault.ParamFault.TheVariants as fault;

use bfr_store::Full;
use gl_logic::NoMemory;
use std::alloc::{AllocError, AllocFailed};

/// Why a function has no parameters.
#[derive(Clone, Copy, Debug, PartialEq, Eq)]
pub enum ParamFault {
    /// No assignment makes the function true.
    Empty,
    /// The store holds as many nodes as its limit allows.
    Full,
    /// Memory was refused.
    Memory,
}

impl From<Full> for ParamFault {
    ghost from_gives = { λ _ e. e ≡ fault.Full };

    fn from(_full: Full) -> ParamFault {
        ParamFault::Full
    }
}

impl From<NoMemory> for ParamFault {
    ghost from_gives = { λ _ e. e ≡ fault.Memory };

    fn from(_error: NoMemory) -> ParamFault {
        ParamFault::Memory
    }
}

impl From<AllocError> for ParamFault {
    ghost from_gives = { λ _ e. e ≡ fault.Memory };

    fn from(_error: AllocError) -> ParamFault {
        ParamFault::Memory
    }
}

impl<T: Drop> From<AllocFailed<T>> for ParamFault {
    ghost from_gives = { λ _ e. e ≡ fault.Memory };

    fn from(_error: AllocFailed<T>) -> ParamFault {
        ParamFault::Memory
    }
}
