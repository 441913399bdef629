//! Why a term has no symbolic value.

ghost use Rattle.std.specs.Prelude.{◌≡◌};
ghost use Rattle.gl_interp.specs.declared.fault.GlFault.TheVariants as fault;
ghost use Rattle.gl_interp.specs.Faults.{fault_from};

use bfr_store::Full;
use gl_logic::{Assignment, NoMemory};
use std::alloc::{AllocError, AllocFailed};
use sym_objects::SobFault;
use sym_prims::SymFault;

/// Why a term has no symbolic value, or bindings no symbolic input. An assignment makes the path true, and the cause is there
/// on the environment under it.
#[derive(Drop)]
pub enum GlFault {
    /// The term has no value with so many definitions opened inside one another.
    Clock(Assignment),
    /// A value on the way is an integer outside -2^127 to 2^127 - 1.
    Wide(Assignment),
    /// More subterms would be visited than the machine's limit allows, where each different call of its memoized functions
    /// is opened once.
    Steps(Assignment),
    /// What the evaluation speaks of is more different objects than the machine's arena may hold.
    Cells(Assignment),
    /// The table of symbolic objects or the bit store holds as many nodes as its limit allows.
    Full,
    /// The bit store gave up its last decision.
    Spent,
    /// Memory was refused.
    Memory,
}

impl GlFault {
    /// A fault of a primitive.
    pub(crate) fn of(fault: SymFault) -> GlFault
        ensures { result ≡ fault_from fault }
    {
        match fault {
            SymFault::Full => GlFault::Full,
            SymFault::Spent => GlFault::Spent,
            SymFault::Wide(a) => GlFault::Wide(a),
            SymFault::Memory => GlFault::Memory,
        }
    }
}

impl From<Full> for GlFault {
    ghost from_gives = { λ _ e. e ≡ fault.Full };

    fn from(_full: Full) -> GlFault {
        GlFault::Full
    }
}

impl From<NoMemory> for GlFault {
    ghost from_gives = { λ _ e. e ≡ fault.Memory };

    fn from(_error: NoMemory) -> GlFault {
        GlFault::Memory
    }
}

impl From<AllocError> for GlFault {
    ghost from_gives = { λ _ e. e ≡ fault.Memory };

    fn from(_error: AllocError) -> GlFault {
        GlFault::Memory
    }
}

impl<T: Drop> From<AllocFailed<T>> for GlFault {
    ghost from_gives = { λ _ e. e ≡ fault.Memory };

    fn from(_error: AllocFailed<T>) -> GlFault {
        GlFault::Memory
    }
}

impl From<SobFault> for GlFault {
    ghost use Rattle.gl_interp.specs.Faults.{fault_of};

    ghost from_gives = { λ f e. e ≡ fault_of f };

    fn from(fault: SobFault) -> GlFault {
        match fault {
            SobFault::Full => GlFault::Full,
            SobFault::Memory => GlFault::Memory,
        }
    }
}
