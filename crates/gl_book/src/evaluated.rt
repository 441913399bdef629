//! The value of a closed term, in a machine of its own.

ghost use Rattle.std.specs.Prelude.{◌≡◌, [], IfOk, IfErr};
ghost use Rattle.gl_logic.specs.TermOf.{term_of};
ghost use Rattle.gl_logic.specs.IsTermOf.{IsTermOf};
ghost use Rattle.gl_logic.specs.ObjectEq.{is_nil as is_nil_object};
ghost use Rattle.hons_arena.specs.Ids.{object_at, IsLive};
ghost use Rattle.lisp_eval.specs.Answers.{IsValueOf};
ghost use Rattle.lisp_eval.specs.Machines.{AreFunctionsOf};
ghost use Rattle.gl_decide.specs.Bounds.{bounds_of};
ghost use Rattle.gl_book.specs.Answers.{IsPrintedValue, IsTruth, HasCause, LacksValue};
ghost use Rattle.gl_book.specs.Evaluations.{BeginsFor, cause_from};

use super::answer::Cause;
use gl_base::limits::Limits;
use gl_logic::{Term, Tree, World};
use hons_arena::{HonsArena, Id, Kind, TreeFault};
use lisp_eval::{Env, EvalFault, Machine};
use shape_spec::FnSet;
use std::alloc::Global;

/// The value of a term without variables, to be printed. Memory aside, each cause holds: Width, Steps and Cells of the
/// term's evaluation, Size of its value.
pub fn value_of(
    alloc: Global,
    world: &World,
    memoized: &FnSet,
    term: &Term,
    limits: &Limits,
) -> Result<Tree, Cause>
    requires term { IsTermOf world.now.definitions (term_of term.now) }
    requires functions { AreFunctionsOf world.now memoized.now }
    ensures value { IfOk result (IsPrintedValue world.now (term_of term.now)) }
    ensures cause { IfErr result (HasCause (bounds_of limits.now) world.now memoized.now (term_of term.now)) }
{
    let (machine, id) = evaluated(alloc, world, memoized, term, limits)?;
    let value = machine.arena().tree_of(alloc, id);
    drop(machine);
    match value {
        Ok(value) => Ok(value),
        Err(fault) => match fault {
            TreeFault::Large => Err(Cause::Size),
            TreeFault::Memory => Err(Cause::Memory),
        },
    }
}

/// Whether the value of a term without variables is other than NIL. No tree is made of it, so that its size is no cause.
pub fn truth_of(
    alloc: Global,
    world: &World,
    memoized: &FnSet,
    term: &Term,
    limits: &Limits,
) -> Result<bool, Cause>
    requires term { IsTermOf world.now.definitions (term_of term.now) }
    requires functions { AreFunctionsOf world.now memoized.now }
    ensures value { IfOk result (IsTruth world.now (term_of term.now)) }
    ensures cause { IfErr result (LacksValue (bounds_of limits.now) world.now memoized.now (term_of term.now)) }
{
    let (machine, id) = evaluated(alloc, world, memoized, term, limits)?;
    let truth = !is_nil(machine.arena(), id);
    drop(machine);
    Ok(truth)
}

/// A machine in which a term has been evaluated, and the id of its value.
fn evaluated(
    alloc: Global,
    world: &World,
    memoized: &FnSet,
    term: &Term,
    limits: &Limits,
) -> Result<(Machine, Id), Cause>
    requires term { IsTermOf world.now.definitions (term_of term.now) }
    requires functions { AreFunctionsOf world.now memoized.now }
    ensures value { IfOk result (λ p. IsValueOf world.now [] (term_of term.now) p.0.arena.objects p.1) }
    ensures cause { IfErr result (LacksValue (bounds_of limits.now) world.now memoized.now (term_of term.now)) }
{
    let mut machine = begun(alloc, world, memoized, term, limits)?;
    match machine.eval(world, term, &Env::new(alloc)) {
        Ok(id) => Ok((machine, id)),
        Err(fault) => {
            drop(machine);
            Err(cause_of(fault))
        }
    }
}

/// A machine that has begun with the world.
fn begun(
    alloc: Global,
    world: &World,
    memoized: &FnSet,
    term: &Term,
    limits: &Limits,
) -> Result<Machine, Cause>
    requires term { IsTermOf world.now.definitions (term_of term.now) }
    requires functions { AreFunctionsOf world.now memoized.now }
    ensures machine { IfOk result (BeginsFor world.now memoized.now (bounds_of limits.now)) }
    ensures cause { IfErr result (LacksValue (bounds_of limits.now) world.now memoized.now (term_of term.now)) }
{
    // every term of the world has a value
    let _count = world.count();
    let Ok(mut machine) = Machine::new(alloc, limits) else {
        return Err(Cause::Memory);
    };
    match machine.begin(world, memoized) {
        Ok(()) => Ok(machine),
        Err(fault) => {
            drop(machine);
            Err(cause_of(fault))
        }
    }
}

/// The cause that a machine's refusal is.
fn cause_of(fault: EvalFault) -> Cause
    ensures { result ≡ cause_from fault }
{
    match fault {
        EvalFault::Width => Cause::Width,
        EvalFault::Steps => Cause::Steps,
        EvalFault::Cells => Cause::Cells,
        EvalFault::Memory => Cause::Memory,
    }
}

/// Whether an id names NIL.
fn is_nil(arena: &HonsArena, id: Id) -> bool
    requires { IsLive arena.now.objects id }
    ensures { result ≡ is_nil_object (object_at arena.now.objects id) }
{
    match arena.kind(id) {
        Kind::Symbol(name) => name.number == 0,
        _ => false,
    }
}
