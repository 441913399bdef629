//! Steps of the macros on numbers that take one or two arguments.

ghost use Rattle.std.specs.Prelude.{ℕ, ◌∷◌, [], pos, IfOk};
ghost use Rattle.gl_logic.specs.declared.prim.Primitive.TheVariants as prim;
ghost use Rattle.gl_translate.specs.Setting.{Setting};
ghost use Rattle.gl_translate.specs.Macros.{minus_form, of_one, of_two, prim1, prim2, number};
ghost use Rattle.gl_translate.specs.Steps.{Takes, IsBelow, means_of};

use super::fault::TermFault;
use super::form::{Form, Step};
use super::steps::{binary, unary};
use gl_logic::{Prim, Tree};
use std::alloc::Global;

/// `(- a)`, `(- a b)`
pub(crate) fn minus_step(alloc: Global, forms: &[Tree]) -> Result<Step<'_>, TermFault>
    ensures takes { (s : Setting) → Takes s (minus_form (means_of s forms.now)) result }
    ensures below { (n : ℕ) → IfOk result (IsBelow n) }
{
    match forms {
        [a] => unary(alloc, Prim::UnaryMinus, Form::Book(a)),
        [b, a] => {
            let less = Form::Unary(Prim::UnaryMinus, b);
            binary(alloc, Prim::BinaryPlus, Form::Book(a), less)
        }
        _ => Err(TermFault::WrongCount),
    }
}

/// `(1+ a)`
pub(crate) fn one_more_step(alloc: Global, forms: &[Tree]) -> Result<Step<'_>, TermFault>
    ensures takes { (s : Setting) → Takes s (of_one (λ a. prim2 prim.BinaryPlus (number 1) a) (means_of s forms.now)) result }
    ensures below { (n : ℕ) → IfOk result (IsBelow n) }
{
    match forms {
        [a] => binary(alloc, Prim::BinaryPlus, Form::Number(1), Form::Book(a)),
        _ => Err(TermFault::WrongCount),
    }
}

/// `(1- a)`
pub(crate) fn one_less_step(alloc: Global, forms: &[Tree]) -> Result<Step<'_>, TermFault>
    ensures takes { (s : Setting) → Takes s (of_one (λ a. prim2 prim.BinaryPlus a (prim1 prim.UnaryMinus (number 1))) (means_of s forms.now)) result }
    ensures below { (n : ℕ) → IfOk result (IsBelow n) }
{
    match forms {
        [a] => binary(alloc, Prim::BinaryPlus, Form::Book(a), Form::LessOne),
        _ => Err(TermFault::WrongCount),
    }
}

/// `(<= a b)`
pub(crate) fn at_most_step(alloc: Global, forms: &[Tree]) -> Result<Step<'_>, TermFault>
    ensures takes { (s : Setting) → Takes s (of_two (λ a b. prim1 prim.Not (prim2 prim.Less b a)) (means_of s forms.now)) result }
    ensures below { (n : ℕ) → IfOk result (IsBelow n) }
{
    match forms {
        [b, a] => unary(alloc, Prim::Not, Form::Binary(Prim::Less, b, a)),
        _ => Err(TermFault::WrongCount),
    }
}

/// `(> a b)`
pub(crate) fn above_step(alloc: Global, forms: &[Tree]) -> Result<Step<'_>, TermFault>
    ensures takes { (s : Setting) → Takes s (of_two (λ a b. prim2 prim.Less b a) (means_of s forms.now)) result }
    ensures below { (n : ℕ) → IfOk result (IsBelow n) }
{
    match forms {
        [b, a] => binary(alloc, Prim::Less, Form::Book(b), Form::Book(a)),
        _ => Err(TermFault::WrongCount),
    }
}

/// `(>= a b)`
pub(crate) fn at_least_step(alloc: Global, forms: &[Tree]) -> Result<Step<'_>, TermFault>
    ensures takes { (s : Setting) → Takes s (of_two (λ a b. prim1 prim.Not (prim2 prim.Less a b)) (means_of s forms.now)) result }
    ensures below { (n : ℕ) → IfOk result (IsBelow n) }
{
    match forms {
        [b, a] => unary(alloc, Prim::Not, Form::Binary(Prim::Less, a, b)),
        _ => Err(TermFault::WrongCount),
    }
}

/// `(/= a b)`
pub(crate) fn unequal_step(alloc: Global, forms: &[Tree]) -> Result<Step<'_>, TermFault>
    ensures takes { (s : Setting) → Takes s (of_two (λ a b. prim1 prim.Not (prim2 prim.Equal a b)) (means_of s forms.now)) result }
    ensures below { (n : ℕ) → IfOk result (IsBelow n) }
{
    match forms {
        [b, a] => unary(alloc, Prim::Not, Form::Binary(Prim::Equal, a, b)),
        _ => Err(TermFault::WrongCount),
    }
}
