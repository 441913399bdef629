//! Why a primitive has no answer.

ghost use Rattle.std.specs.Prelude.{◌≡◌};
ghost use Rattle.sym_prims.specs.declared.fault.SymFault.TheVariants as fault;

use bfr_store::Full;
use gl_logic::{Assignment, NoMemory};
use sym_objects::SobFault;

/// Why a primitive has no answer.
#[derive(Drop)]
pub enum SymFault {
    /// The table of symbolic objects or the bit store holds as many nodes as its limit allows.
    Full,
    /// The bit store gave up its last decision.
    Spent,
    /// Under this assignment, which makes the path true, the logic's integer leaves 128 bits.
    Wide(Assignment),
    /// Memory was refused.
    Memory,
}

impl From<Full> for SymFault {
    ghost from_gives = { λ _ e. e ≡ fault.Full };

    fn from(_full: Full) -> SymFault {
        SymFault::Full
    }
}

impl From<NoMemory> for SymFault {
    ghost from_gives = { λ _ e. e ≡ fault.Memory };

    fn from(_error: NoMemory) -> SymFault {
        SymFault::Memory
    }
}

impl From<SobFault> for SymFault {
    ghost use Rattle.sym_prims.specs.Faults.{fault_of};

    ghost from_gives = { λ f e. e ≡ fault_of f };

    fn from(fault: SobFault) -> SymFault {
        match fault {
            SobFault::Full => SymFault::Full,
            SobFault::Memory => SymFault::Memory,
        }
    }
}
