//! A primitive on nodes that are no choices.

ghost use Rattle.std.specs.Prelude.{◌≡◌, ℕ, Bool, true, cond};
ghost use Rattle.gl_logic.specs.PrimValue.{prim_of};
ghost use Rattle.int_prims.specs.Integers.{is_operation};
ghost use Rattle.sym_objects.specs.Nodes.{kind_of, node_at};
ghost use Rattle.sym_objects.specs.Seen.{IsLive, IsWhole, stands_for};
ghost use Rattle.sym_prims.specs.Applying.{Applies, Gives};
ghost use Rattle.sym_prims.specs.Frames.{IsTask, value_of};
ghost use Rattle.sym_prims.specs.Results.{is_other, is_predicate};
ghost use Rattle.sym_prims.specs.Seeing.{IsOfParts, IsSimpleIn, takes_two};

use super::answers::lift;
use super::characters::{char_code, code_char};
use super::fault::SymFault;
use super::frames::Task;
use super::kinds::takes_two;
use super::numbers::{integer_bits, operated};
use super::parts::{car, cdr, cons};
use super::predicates::{is_predicate, predicate};
use super::store_calls::avoid;
use bfr_store::{Bits, Edge};
use gl_logic::Prim;
use int_prims::is_operation;
use std::alloc::Global;
use sym_objects::{Sob, Sobs};

/// T where a predicate holds, and NIL elsewhere.
fn decide<B: Bits>(objs: &mut Sobs<B>, prim: Prim, task: Task) -> Result<Sob, SymFault>
    requires prim { is_predicate prim ≡ true }
    requires whole { IsWhole B.Meaning objs.old }
    requires task { IsTask B.Meaning objs.old task }
    requires first { IsSimpleIn objs.old task.first }
    requires second { takes_two prim ≡ true → IsSimpleIn objs.old task.second }
    requires apart { IsOfParts prim (kind_of (node_at objs.old.nodes task.first)) (kind_of (node_at objs.old.nodes task.second)) → ⊥ }
    ensures applies { Applies B.Meaning objs.old objs.new result task.path (value_of B.Meaning objs.old prim task) }
{
    let holds = predicate(objs, prim, task.first, task.second)?;
    lift(objs.boolean(holds))
}

/// The integer of an operation on two integers, each 0 where the object is none.
fn compute<B: Bits>(
    alloc: Global,
    objs: &mut Sobs<B>,
    prim: Prim,
    x: Sob,
    y: Sob,
    path: Edge,
) -> Result<Sob, SymFault>
    requires prim { is_operation prim ≡ true }
    requires whole { IsWhole B.Meaning objs.old }
    requires x { IsLive objs.old x }
    requires y { IsLive objs.old y }
    requires path { B.live objs.old.store path }
    requires first { IsSimpleIn objs.old x }
    requires second { IsSimpleIn objs.old y }
    ensures applies { Applies B.Meaning objs.old objs.new result path (λ a. prim_of prim (stands_for B.Meaning objs.old x a) (stands_for B.Meaning objs.old y a)) }
{
    let a = integer_bits(objs, x);
    let b = integer_bits(objs, y);
    let made = operated(objs, prim, &a, &b)?;
    avoid(alloc, objs, made.over, path)?;
    lift(objs.integer(&made.bits))
}

/// The second object of a primitive that takes two, and else the first again.
fn second_of(prim: Prim, task: Task) -> Sob
    ensures { result ≡ cond (takes_two prim) task.second task.first }
{
    if takes_two(prim) {
        task.second
    } else {
        task.first
    }
}

/// The value of a primitive that neither answers T or NIL nor is an integer operation.
fn rebuild<B: Bits>(
    alloc: Global,
    objs: &mut Sobs<B>,
    prim: Prim,
    x: Sob,
    y: Sob,
) -> Result<Sob, SymFault>
    requires prim { is_other prim ≡ true }
    requires whole { IsWhole B.Meaning objs.old }
    requires x { IsLive objs.old x }
    requires y { IsLive objs.old y }
    requires simple { IsSimpleIn objs.old x }
    ensures gives { Gives B.Meaning objs.old objs.new result (λ a. prim_of prim (stands_for B.Meaning objs.old x a) (stands_for B.Meaning objs.old y a)) }
{
    match prim {
        Prim::Cons => cons(objs, x, y),
        Prim::Car => car(objs, x),
        Prim::Cdr => cdr(objs, x),
        Prim::CharCode => char_code(objs, x),
        Prim::CodeChar => code_char(alloc, objs, x),
        _ => unreachable!(),
    }
}

/// The value of a primitive on nodes that are no choices, but for the equality of two conses.
pub fn simple<B: Bits>(
    alloc: Global,
    objs: &mut Sobs<B>,
    prim: Prim,
    task: Task,
) -> Result<Sob, SymFault>
    requires whole { IsWhole B.Meaning objs.old }
    requires task { IsTask B.Meaning objs.old task }
    requires first { IsSimpleIn objs.old task.first }
    requires second { takes_two prim ≡ true → IsSimpleIn objs.old task.second }
    requires apart { IsOfParts prim (kind_of (node_at objs.old.nodes task.first)) (kind_of (node_at objs.old.nodes task.second)) → ⊥ }
    ensures applies { Applies B.Meaning objs.old objs.new result task.path (value_of B.Meaning objs.old prim task) }
{
    if is_predicate(prim) {
        return decide(objs, prim, task);
    }
    if is_operation(prim) {
        let second = second_of(prim, task);
        return compute(alloc, objs, prim, task.first, second, task.path);
    }
    rebuild(alloc, objs, prim, task.first, task.second)
}
