//! Why a symbolic object is not made.

ghost use Rattle.std.specs.Prelude.{◌≡◌};
ghost use Rattle.sym_objects.specs.declared.fault.SobFault.TheVariants as fault;

use bfr_store::Full;
use gl_logic::NoMemory;

/// Why a symbolic object is not made.
#[derive(Clone, Copy, Debug, PartialEq, Eq)]
pub enum SobFault {
    /// The table, the bit store or the arena that the call asks for something new holds as much as its limit allows.
    Full,
    /// Memory was refused.
    Memory,
}

impl From<Full> for SobFault {
    ghost from_gives = { λ _ e. e ≡ fault.Full };

    fn from(_full: Full) -> SobFault {
        SobFault::Full
    }
}

impl From<hons_arena::Full> for SobFault {
    ghost from_gives = { λ _ e. e ≡ fault.Full };

    fn from(_full: hons_arena::Full) -> SobFault {
        SobFault::Full
    }
}

impl From<NoMemory> for SobFault {
    ghost from_gives = { λ _ e. e ≡ fault.Memory };

    fn from(_error: NoMemory) -> SobFault {
        SobFault::Memory
    }
}
