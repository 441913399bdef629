//! Values of constants and primitives, without a frame.

ghost use Rattle.std.specs.Prelude.{◌≡◌, ◌-◌, ◌<◌, IfOk, IsErrOf};
ghost use Rattle.gl_logic.specs.Object.{Int};
ghost use Rattle.gl_logic.specs.PrimValue.{prim_of};
ghost use Rattle.hons_arena.specs.Held.{IsWhole};
ghost use Rattle.lisp_eval.specs.Attempts.{Applies, IsHere, value_found};
ghost use Rattle.lisp_eval.specs.Outside.{value_object, IsLiveValue};
ghost use Rattle.lisp_eval.specs.declared.attempt.Stop.TheVariants as stop;

use crate::attempt::{Found, Stop};
use crate::primitives::{code, is_predicate, predicate};
use crate::value::{Value, cons, integer_id};
use crate::word_arithmetic::small_value;
use gl_logic::{Prim, Tree, TreeKind};
use hons_arena::HonsArena;
use int_prims::{apply_int, is_operation};

/// What a constant gives that is an integer, a symbol or a string; nothing for any other.
pub fn constant_found(arena: &mut HonsArena, tree: &Tree, left: u64) -> Result<Found, Stop>
    requires whole { IsWhole arena.old }
    requires left { 0 < left }
    ensures found { IfOk result (λ f. f.left ≡ left - 1) }
    ensures applies { Applies tree.now arena.old arena.new (value_found result) }
{
    match constant(arena, tree) {
        Ok(value) => Ok(Found {
            value,
            left: left - 1,
        }),
        Err(stop) => Err(stop),
    }
}

/// The value of a constant that is an integer, a symbol or a string.
fn constant(arena: &mut HonsArena, tree: &Tree) -> Result<Value, Stop>
    requires { IsWhole arena.old }
    ensures { Applies tree.now arena.old arena.new result }
{
    match tree.kind() {
        TreeKind::Int(i) => integer_value(arena, i),
        TreeKind::Symbol(t) => Ok(Value::Symbol(t)),
        TreeKind::Text(t) => Ok(Value::Text(t)),
        TreeKind::Character(_) => Err(Stop::Beyond),
        TreeKind::List => Err(Stop::Beyond),
    }
}

/// An integer as a value: one of more than 64 bits takes a cell where it has none.
fn integer_value(arena: &mut HonsArena, i: i128) -> Result<Value, Stop>
    requires { IsWhole arena.old }
    ensures { Applies (Int i) arena.old arena.new result }
{
    match Value::small(i) {
        Some(value) => Ok(value),
        None => Ok(Value::of(integer_id(arena, i)?)),
    }
}

/// The value of a primitive. That of `code-char` is beyond this.
pub fn apply(arena: &mut HonsArena, prim: Prim, x: Value, y: Value) -> Result<Value, Stop>
    requires whole { IsWhole arena.old }
    requires x { IsLiveValue arena.old.objects x }
    requires y { IsLiveValue arena.old.objects y }
    ensures { Applies (prim_of prim (value_object arena.old.objects x) (value_object arena.old.objects y)) arena.old arena.new result }
{
    if let Some(value) = small_value(prim, x, y) {
        return Ok(value);
    }
    if is_operation(prim) {
        return match apply_int(prim, x.integer(arena), y.integer(arena)) {
            Ok(i) => integer_value(arena, i),
            Err(_) => Err(Stop::Beyond),
        };
    }
    match prim {
        Prim::Cons => Ok(Value::of(cons(arena, x, y)?)),
        _ => value_of(arena, prim, x, y),
    }
}

/// The value of a primitive that needs no cell.
fn value_of(arena: &HonsArena, prim: Prim, x: Value, y: Value) -> Result<Value, Stop>
    requires x { IsLiveValue arena.now.objects x }
    requires y { IsLiveValue arena.now.objects y }
    ensures value { IfOk result (IsHere arena.now.objects (prim_of prim (value_object arena.now.objects x) (value_object arena.now.objects y))) }
    ensures beyond { ¬ IsErrOf result stop.Full }
{
    if is_predicate(prim) {
        return Ok(Value::truth(predicate(arena, prim, x, y)));
    }
    match prim {
        Prim::Car => Ok(Value::of(arena.car(x.with_parts()))),
        Prim::Cdr => Ok(Value::of(arena.cdr(x.with_parts()))),
        Prim::CharCode => Ok(Value::Int(i64::from(code(arena, x)))),
        _ => Err(Stop::Beyond),
    }
}
