//! Shapes: what objects a variable is tried on.

ghost use Rattle.std.specs.Prelude.{◌≡◌, ◌++◌, map, OnOk, IfOk};
ghost use Rattle.std.specs.Option.{option_copied};
ghost use Rattle.shape_spec.specs.ShapeSeen.{Constant, Choice};
ghost use Rattle.shape_spec.specs.ShapeOf.{shape_of, pairs};
ghost use Rattle.shape_spec.specs.Indices.{integer_in, indices_in};

use gl_logic::{NoMemory, Tree};
use std::alloc::Global;

/// A shape of `:g-bindings`, as GL's shape specifiers. An index is a number below 1,000,000 and names a
/// truth value.
#[derive(Drop)]
pub enum Shape {
    /// T where the index is true, else NIL.
    Boolean(u32),
    /// The integer in two's complement of these indices, the lowest bit first and the sign last.
    Integer(Vec<u32>),
    /// The first shape's object where the index is true, else the second's.
    Choice(u32, Box<Shape>, Box<Shape>),
    /// The object itself.
    Constant(Tree),
    /// Conses: the elements from the last to the first, and the tail, as in [`Tree::elements`].
    List(Vec<Shape>, Box<Shape>),
}

impl Shape {
    /// The indices of an integer, the lowest bit first; none where the shape is no integer.
    pub fn as_integer(&self) -> Option<&[u32]>
        ensures { option_copied result ≡ integer_in (shape_of self.now) }
    {
        match self {
            Shape::Integer(indices) => Some(indices.as_slice()),
            Shape::List(elements, tail) => {
                if elements.is_empty() {
                    tail.as_integer()
                } else {
                    None
                }
            }
            Shape::Boolean(_) => None,
            Shape::Choice(_, _, _) => None,
            Shape::Constant(_) => None,
        }
    }

    /// A shape of one object.
    pub(crate) fn constant(object: Tree) -> Shape
        ensures { shape_of result ≡ Constant object }
    {
        Shape::Constant(object)
    }

    /// The first shape where the index is true, else the second. Both are lost where memory runs out.
    pub(crate) fn choice(
        alloc: Global,
        index: u32,
        first: Shape,
        second: Box<Shape>,
    ) -> Result<Shape, NoMemory>
        ensures { IfOk result (λ s. shape_of s ≡ Choice index (shape_of first) (shape_of second.value)) }
    {
        let first = Box::new(alloc, first)?;
        Ok(Shape::Choice(index, first, second))
    }

    /// The conses of shapes, from the last to the first, onto a shape.
    pub(crate) fn list(elements: Vec<Shape>, tail: Box<Shape>) -> Shape
        ensures { shape_of result ≡ pairs (map shape_of elements.items) (shape_of tail.value) }
    {
        Shape::List(elements, tail)
    }

    /// Puts the indices of the shape last, in the order in which they stand in it.
    pub(crate) fn add_indices(&self, all: &mut Vec<u32>) -> Result<(), NoMemory>
        ensures { OnOk result (all.new.items ≡ all.old.items ++ indices_in (shape_of self.now)) }
    {
        match self {
            Shape::Boolean(index) => all.push(*index)?,
            Shape::Integer(indices) => all.extend_from_slice(indices.as_slice())?,
            Shape::Choice(index, first, second) => {
                all.push(*index)?;
                first.add_indices(all)?;
                second.add_indices(all)?;
            }
            Shape::Constant(_) => {}
            Shape::List(elements, tail) => {
                let mut left = elements.len();
                while left > 0 {
                    left -= 1;
                    elements[left].add_indices(all)?;
                }
                tail.add_indices(all)?;
            }
        }
        Ok(())
    }
}
