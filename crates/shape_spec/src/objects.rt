//! The objects that shapes have under an assignment.

ghost use Rattle.std.specs.Prelude.{◌≡◌, ◌<◌, ◌≤◌, ◌+◌, map, length, IfOk, ◌^◌, pos, neg_ℤ, ◌+ℤ◌, ◌≤ℤ◌, ◌<ℤ◌};
ghost use Rattle.std.specs.List.Sorted.{IsNonDecreasing};
ghost use Rattle.gl_logic.specs.Assignments.{value_at};
ghost use Rattle.gl_logic.specs.Object.{boolean_object};
ghost use Rattle.gl_logic.specs.TwosComplement.{digit, integer_of};
ghost use Rattle.shape_spec.specs.ShapeOf.{shape_of};
ghost use Rattle.shape_spec.specs.Indices.{IsShape};
ghost use Rattle.shape_spec.specs.InputMeant.{object_meant, truth_in};

use super::order::rank;
use super::shape::Shape;
use gl_logic::{Assignment, NoMemory, TextId, Tree};
use std::alloc::Global;

/// The object of a shape, by all indices in order and their truth values.
///
/// It recurses into parentheses and choices, and goes along a list without recursion.
pub(crate) fn object_of(
    alloc: Global,
    shape: &Shape,
    sorted: &[u32],
    a: &Assignment,
) -> Result<Tree, NoMemory>
    requires order { IsNonDecreasing sorted.now }
    requires width { length a.now ≡ length sorted.now }
    requires few { length sorted.now ≤ 1024 }
    requires shape { IsShape (shape_of shape.now) }
    ensures { IfOk result (λ x. x ≡ object_meant (truth_in sorted.now (value_at a.now)) (shape_of shape.now)) }
{
    match shape {
        Shape::Boolean(index) => Ok(boolean_tree(truth(sorted, a, *index))),
        Shape::Integer(indices) => Ok(Tree::int(integer_from(indices.as_slice(), sorted, a))),
        Shape::Choice(index, first, second) => {
            if truth(sorted, a, *index) {
                object_of(alloc, first, sorted, a)
            } else {
                object_of(alloc, second, sorted, a)
            }
        }
        Shape::Constant(object) => object.copy(alloc),
        Shape::List(elements, tail) => {
            let mut all = object_of(alloc, tail, sorted, a)?;
            for element in elements {
                let first = object_of(alloc, element, sorted, a)?;
                all = Tree::pair(alloc, first, all)?;
            }
            Ok(all)
        }
    }
}

/// T or NIL.
fn boolean_tree(b: bool) -> Tree
    ensures { result ≡ boolean_object b }
{
    if b {
        Tree::symbol(TextId { number: 1 })
    } else {
        Tree::nil()
    }
}

/// Whether an index is true: the value at its rank, false past the width.
fn truth(sorted: &[u32], a: &Assignment, index: u32) -> bool
    requires order { IsNonDecreasing sorted.now }
    requires width { length a.now ≡ length sorted.now }
    requires few { length sorted.now ≤ 1024 }
    ensures { result ≡ truth_in sorted.now (value_at a.now) index }
{
    let place = rank(sorted, index);
    place < sorted.len() && a.get(place as u32)
}

/// The integer of 1 to 128 indices, the lowest bit first and the sign last.
fn integer_from(indices: &[u32], sorted: &[u32], a: &Assignment) -> i128
    requires some { 0 < length indices.now }
    requires most { length indices.now ≤ 128 }
    requires order { IsNonDecreasing sorted.now }
    requires width { length a.now ≡ length sorted.now }
    requires few { length sorted.now ≤ 1024 }
    ensures { result ≡ integer_of (map (truth_in sorted.now (value_at a.now)) indices.now) }
{
    let last = indices.len() - 1;
    let mut value = -digit(truth(sorted, a, indices[last]));
    for k in (0..last).rev() {
        value = doubled(truth(sorted, a, indices[k]), value);
    }
    value
}

fn digit(bit: bool) -> i128
    ensures { result ≡ digit bit }
{
    if bit { 1 } else { 0 }
}

/// A further bit below the bits of an integer.
fn doubled(bit: bool, value: i128) -> i128
    requires least { neg_ℤ (pos (2 ^ 126)) ≤ℤ value }
    requires most { value <ℤ pos (2 ^ 126) }
    ensures { result ≡ digit bit +ℤ (value +ℤ value) }
{
    digit(bit) + (value + value)
}
