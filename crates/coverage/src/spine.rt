//! Shapes as lists.

ghost use Rattle.std.specs.Prelude.{◌≡◌, ◌++◌, map, reverse, IfOk, OnOk};
ghost use Rattle.shape_spec.specs.ShapeOf.{shape_of};
ghost use Rattle.coverage.specs.Spines.{spine_of};

use gl_logic::{NoMemory, Tree};
use shape_spec::Shape;
use std::alloc::Global;

/// The shape that stands behind conses.
#[derive(Drop)]
pub(crate) enum End<'a> {
    Boolean(u32),
    Integer(&'a [u32]),
    Constant(&'a Tree),
    Choice(u32, &'a Shape, &'a Shape),
}

/// A shape as the first parts of its conses, from the first to the last, and the shape behind them.
#[derive(Drop)]
pub(crate) struct Spine<'a> {
    pub(crate) elements: Vec<&'a Shape>,
    pub(crate) end: End<'a>,
}

/// The spine of a shape.
pub(crate) fn spine_of<'a>(alloc: Global, shape: &'a Shape) -> Result<Spine<'a>, NoMemory>
    ensures { IfOk result (λ s. spine_of s ≡ shape_of shape.now) }
{
    let mut elements = Vec::new(alloc);
    let mut rest = shape;
    loop {
        match rest {
            Shape::List(firsts, tail) => {
                add_in_turn(firsts.as_slice(), &mut elements)?;
                rest = tail;
            }
            Shape::Boolean(index) => return Ok(Spine {
                elements,
                end: End::Boolean(*index),
            }),
            Shape::Integer(indices) => return Ok(Spine {
                elements,
                end: End::Integer(indices.as_slice()),
            }),
            Shape::Constant(object) => return Ok(Spine {
                elements,
                end: End::Constant(object),
            }),
            Shape::Choice(index, first, second) => {
                return Ok(Spine {
                    elements,
                    end: End::Choice(*index, first, second),
                });
            }
        }
    }
}

/// Puts shapes last, the last of them first.
fn add_in_turn<'a>(shapes: &'a [Shape], all: &mut Vec<&'a Shape>) -> Result<(), NoMemory>
    ensures { OnOk result (map (λ s. shape_of s.now) all.new.items ≡ map (λ s. shape_of s.now) all.old.items ++ reverse (map shape_of shapes.now)) }
{
    let mut left = shapes.len();
    while left > 0 {
        left -= 1;
        all.push(&shapes[left])?;
    }
    Ok(())
}
