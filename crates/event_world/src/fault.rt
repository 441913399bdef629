//! Why a form means no event.

ghost use Rattle.std.specs.Prelude.{◌≡◌};

use gl_logic::NoMemory;
use gl_translate::TermFault;
use std::alloc::{AllocError, AllocFailed};

/// Why a form means no event: the first check that fails.
#[derive(Clone, Copy, Debug, PartialEq, Eq)]
pub enum EventFault {
    /// V1: the form is no list, or its head is no event of the table.
    UnknownEvent,
    /// V2: the form has not the parts of its event, or a name that the event can't have.
    BadEvent,
    /// V3: the name is taken.
    Redefined,
    /// V4, V5, V6, V7 and V12: a term's first fault. V7 is also that of formals, and V4 that of what is
    /// memoized and no definition.
    Term(TermFault),
    /// V8: the number of the first recursive call that is no step.
    NotAdmitted(u64),
    /// V10: bindings are refused, or a variable of a theorem is not bound.
    BadBindings,
    /// V11: an option, a keyword or a `declare` that there is not, one given twice, a clock out of range,
    /// or a measure of another form.
    BadOption,
    /// V13: the cases are refused, or a parameter stands where it may not.
    BadCases,
    /// Memory was refused.
    Memory,
}

impl From<NoMemory> for EventFault {
    ghost use Rattle.event_world.specs.declared.fault.EventFault.TheVariants.{Memory};

    ghost from_gives = { λ _ e. e ≡ Memory };

    fn from(_error: NoMemory) -> EventFault {
        EventFault::Memory
    }
}

impl From<AllocError> for EventFault {
    ghost use Rattle.event_world.specs.declared.fault.EventFault.TheVariants.{Memory};

    ghost from_gives = { λ _ e. e ≡ Memory };

    fn from(_error: AllocError) -> EventFault {
        EventFault::Memory
    }
}

impl<T: Drop> From<AllocFailed<T>> for EventFault {
    ghost use Rattle.event_world.specs.declared.fault.EventFault.TheVariants.{Memory};

    ghost from_gives = { λ _ e. e ≡ Memory };

    fn from(_error: AllocFailed<T>) -> EventFault {
        EventFault::Memory
    }
}
