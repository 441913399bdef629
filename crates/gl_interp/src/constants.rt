//! Constant nodes of trees, by way of the machine's arena.

ghost use Rattle.std.specs.Prelude.{◌≡◌, ℕ, Bool, IfOk, IfErr};
ghost use Rattle.sym_objects.specs.Keeps.{Keeps};
ghost use Rattle.sym_objects.specs.Seen.{IsLive, IsWhole, stands_for};
ghost use Rattle.gl_interp.specs.Causes.{Rests};
ghost use Rattle.gl_interp.specs.Constants.{HasPlaceCause, fault_of_sob};
ghost use Rattle.gl_interp.specs.declared.constants.PlaceFault.TheVariants as fault;

use bfr_store::{Bits, Full};
use gl_logic::Tree;
use lisp_eval::Machine;
use std::alloc::Global;
use sym_objects::{Sob, SobFault, Sobs};

/// Why an object has no symbolic one.
#[derive(Clone, Copy, Debug, PartialEq, Eq)]
pub enum PlaceFault {
    /// The machine's arena has too little room for a constant.
    Cells,
    /// The table of symbolic objects or the bit store holds as many nodes as its limit allows.
    Full,
    /// Memory was refused.
    Memory,
}

impl From<Full> for PlaceFault {
    ghost from_gives = { λ _ e. e ≡ fault.Full };

    fn from(_full: Full) -> PlaceFault {
        PlaceFault::Full
    }
}

impl From<SobFault> for PlaceFault {
    ghost from_gives = { λ f e. e ≡ fault_of_sob f };

    fn from(fault: SobFault) -> PlaceFault {
        match fault {
            SobFault::Full => PlaceFault::Full,
            SobFault::Memory => PlaceFault::Memory,
        }
    }
}

/// The constant node of a tree's object, which is placed in the machine's arena for so long.
pub(crate) fn constant<B: Bits>(
    alloc: Global,
    objs: &mut Sobs<B>,
    machine: &mut Machine,
    tree: &Tree,
) -> Result<Sob, PlaceFault>
    requires whole { IsWhole B.Meaning objs.old }
    ensures keeps { Keeps B.Meaning objs.old objs.new }
    ensures live { IfOk result (λ r. IsLive objs.new r) }
    ensures means { IfOk result (λ r. (a : ℕ → Bool) → stands_for B.Meaning objs.new r a ≡ tree.now) }
    ensures cause { IfErr result (HasPlaceCause B.Meaning objs.new machine.old tree.now) }
    ensures rests { Rests machine.old machine.new }
{
    let mark = machine.mark();
    match machine.input(tree) {
        Ok(id) => {
            let made = objs.constant(alloc, machine.arena(), id);
            machine.back(mark);
            match made {
                Ok(x) => Ok(x),
                Err(SobFault::Full) => Err(PlaceFault::Full),
                Err(SobFault::Memory) => Err(PlaceFault::Memory),
            }
        }
        Err(_) => {
            machine.back(mark);
            Err(PlaceFault::Cells)
        }
    }
}
