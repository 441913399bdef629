//! Why a list is not made.

ghost use Rattle.std.specs.Prelude.{◌≡◌};
ghost use Rattle.fast_alists.specs.declared.fault.AlistFault.TheVariants as fault;

use gl_logic::NoMemory;

/// Why a list is not made.
#[derive(Clone, Copy, Debug, PartialEq, Eq)]
pub enum AlistFault {
    /// The arena has no cell left.
    Full,
    /// Memory was refused.
    Memory,
}

impl From<hons_arena::Full> for AlistFault {
    ghost from_gives = { λ _ e. e ≡ fault.Full };

    fn from(_full: hons_arena::Full) -> AlistFault {
        AlistFault::Full
    }
}

impl From<NoMemory> for AlistFault {
    ghost from_gives = { λ _ e. e ≡ fault.Memory };

    fn from(_error: NoMemory) -> AlistFault {
        AlistFault::Memory
    }
}
