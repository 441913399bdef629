//! Answers of the table as answers of a primitive.

ghost use Rattle.std.specs.Prelude.{◌≡◌, ℕ, Bool, cond};
ghost use Rattle.sym_objects.specs.Seen.{IsLive, IsWhole, stands_for};
ghost use Rattle.sym_prims.specs.Applying.{Gives};
ghost use Rattle.sym_prims.specs.Faults.{lifted, lifted_sob};
ghost use Rattle.sym_prims.specs.Frames.{JoiningLive, both, joined};

use super::fault::SymFault;
use super::frames::Joining;
use super::store_calls::{conjunction, is_always};
use bfr_store::{Bits, Edge, Full};
use std::alloc::Global;
use sym_objects::{Sob, SobFault, Sobs};

/// The answer of a table that has room, or that has none.
pub fn lift(made: Result<Sob, Full>) -> Result<Sob, SymFault>
    ensures { result ≡ lifted made }
{
    Ok(made?)
}

/// The same with want of memory.
pub fn lift_sob(made: Result<Sob, SobFault>) -> Result<Sob, SymFault>
    ensures { result ≡ lifted_sob made }
{
    Ok(made?)
}

/// T where neither of two objects is NIL.
fn both_true<B: Bits>(
    alloc: Global,
    objs: &mut Sobs<B>,
    first: Sob,
    second: Sob,
) -> Result<Sob, SymFault>
    requires whole { IsWhole B.Meaning objs.old }
    requires first { IsLive objs.old first }
    requires second { IsLive objs.old second }
    ensures gives { Gives B.Meaning objs.old objs.new result (λ a. both (stands_for B.Meaning objs.old first a) (stands_for B.Meaning objs.old second a)) }
{
    let x = objs.truth(alloc, first)?;
    let y = objs.truth(alloc, second)?;
    let holds = conjunction(objs, x, y)?;
    lift(objs.boolean(holds))
}

/// The first object where the edge is true, and the second elsewhere. A constant edge makes no choice.
pub fn choose<B: Bits>(
    alloc: Global,
    objs: &mut Sobs<B>,
    test: Edge,
    first: Sob,
    second: Sob,
) -> Result<Sob, SymFault>
    requires whole { IsWhole B.Meaning objs.old }
    requires test { B.live objs.old.store test }
    requires first { IsLive objs.old first }
    requires second { IsLive objs.old second }
    ensures gives { Gives B.Meaning objs.old objs.new result (λ a. cond (B.truth_of objs.old.store test a) (stands_for B.Meaning objs.old first a) (stands_for B.Meaning objs.old second a)) }
{
    if is_always(objs, test, true) {
        return Ok(first);
    }
    if is_always(objs, test, false) {
        return Ok(second);
    }
    lift_sob(objs.merge(alloc, test, first, second))
}

/// One object of two answers.
pub fn join<B: Bits>(
    alloc: Global,
    objs: &mut Sobs<B>,
    joining: Joining,
    first: Sob,
    second: Sob,
) -> Result<Sob, SymFault>
    requires whole { IsWhole B.Meaning objs.old }
    requires joining { JoiningLive (B.live objs.old.store) joining }
    requires first { IsLive objs.old first }
    requires second { IsLive objs.old second }
    ensures gives { Gives B.Meaning objs.old objs.new result (λ a. joined (λ e. B.truth_of objs.old.store e a) joining (stands_for B.Meaning objs.old first a) (stands_for B.Meaning objs.old second a)) }
{
    match joining {
        Joining::Choice(test) => choose(alloc, objs, test, first, second),
        Joining::Both => both_true(alloc, objs, first, second),
    }
}
