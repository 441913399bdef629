//! Where a term is other than NIL.

ghost use Rattle.std.specs.Prelude.{◌≡◌, ℕ, Bool, true, IfOk, IfErr};
ghost use Rattle.gl_logic.specs.IsTermOf.{IsTermOf};
ghost use Rattle.gl_logic.specs.TermOf.{term_of};
ghost use Rattle.lisp_eval.specs.Machines.{Fits};
ghost use Rattle.sym_objects.specs.Seen.{IsWhole};
ghost use Rattle.sym_prims.specs.Applying.{Leaves};
ghost use Rattle.gl_interp.specs.Causes.{HasCause, Rests, Task};
ghost use Rattle.gl_interp.specs.Environments.{AreLive};
ghost use Rattle.gl_symbolic.specs.Steps.{IsCondition};

use bfr_store::{Bits, Edge};
use gl_interp::{GlFault, SymEnv, interp};
use gl_logic::{Term, World};
use lisp_eval::Machine;
use std::alloc::Global;
use sym_objects::{SobFault, Sobs};

/// The edge that tells, under each assignment of the path, whether the term's value is other than NIL.
pub(crate) fn condition<B: Bits>(
    alloc: Global,
    objs: &mut Sobs<B>,
    machine: &mut Machine,
    world: &World,
    term: &Term,
    env: &SymEnv,
    clock: u32,
    path: Edge,
) -> Result<Edge, GlFault>
    requires whole { IsWhole B.Meaning objs.old }
    requires path { B.live objs.old.store path }
    requires reaches { (a : ℕ → Bool) × (B.truth_of objs.old.store path a ≡ true) }
    requires fits { Fits world.now machine.old }
    requires term { IsTermOf world.now.definitions (term_of term.now) }
    requires env { AreLive objs.old env.now }
    ensures leaves { Leaves B.Meaning objs.old objs.new }
    ensures edge { IfOk result (IsCondition B.Meaning objs.old objs.new world.now (term_of term.now) env.now path) }
    ensures cause { IfErr result (HasCause B.Meaning objs.old objs.new (record { world = world.now; machine = machine.old; clock = clock; term = term_of term.now; env = env.now; path = path })) }
    ensures rests { Rests machine.old machine.new }
{
    match interp(alloc, objs, machine, world, term, env, clock, path) {
        Err(fault) => Err(fault),
        Ok(value) => match objs.truth(alloc, value) {
            Ok(edge) => Ok(edge),
            Err(SobFault::Full) => Err(GlFault::Full),
            Err(SobFault::Memory) => Err(GlFault::Memory),
        },
    }
}
