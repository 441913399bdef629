//! The symbolic objects of shapes.

ghost use Rattle.std.specs.Prelude.{◌≡◌, ◌≤◌, All, Contains, cond, length, IfOk, IfErr, IsErrOf, OnErr};
ghost use Rattle.shape_spec.specs.ShapeSeen.{Boolean, Integer};
ghost use Rattle.sym_objects.specs.Makes.{Makes};
ghost use Rattle.sym_objects.specs.declared.fault.SobFault.TheVariants as fault;
ghost use Rattle.shape_spec.specs.Indices.{AreApart, IsShape, indices_in, indices_of, width_of};
ghost use Rattle.shape_spec.specs.ShapeOf.{shape_of};
ghost use Rattle.sym_objects.specs.Keeps.{Keeps};
ghost use Rattle.sym_objects.specs.Seen.{IsFull, IsLive, IsWhole, stands_for};
ghost use Rattle.gl_interp.specs.Causes.{Rests};
ghost use Rattle.gl_interp.specs.Shapes.{AreAmong, HasShapeCause, IsObjectOver, SetsOnly, bits_over, edge_at, holds_over};

use super::constants::{PlaceFault, constant};
use bfr_store::{Bits, Bitvec, Edge, Full};
use gl_logic::Assignment;
use lisp_eval::Machine;
use shape_spec::{Bindings, Shape};
use std::alloc::Global;
use sym_objects::{Sob, SobFault, Sobs};

/// The symbolic object of a shape over a vector of edges. The assignment is set so that the choices lead to what is looked
/// at: after Cells, the shape's object under it has no room.
pub(crate) fn object_over<B: Bits>(
    alloc: Global,
    objs: &mut Sobs<B>,
    machine: &mut Machine,
    b: &Bindings,
    edges: &[Edge],
    shape: &Shape,
    found: &mut Assignment,
) -> Result<Sob, PlaceFault>
    requires whole { IsWhole B.Meaning objs.old }
    requires edges { All (B.live objs.old.store) edges.now }
    requires count { length edges.now ≡ width_of b.now }
    requires found { length found.old ≡ width_of b.now }
    requires shape { IsShape (shape_of shape.now) }
    requires among { AreAmong (indices_in (shape_of shape.now)) (indices_of b.now) }
    requires apart { AreApart (indices_in (shape_of shape.now)) }
    ensures keeps { Keeps B.Meaning objs.old objs.new }
    ensures object { IfOk result (λ r. IsObjectOver B.Meaning objs.old objs.new b.now edges.now (shape_of shape.now) r) }
    ensures found { length found.new ≡ length found.old }
    ensures others { SetsOnly (indices_of b.now) (indices_in (shape_of shape.now)) found.old found.new }
    ensures cause { IfErr result (HasShapeCause B.Meaning objs.new machine.old b.now (shape_of shape.now) found.new) }
    ensures rests { Rests machine.old machine.new }
{
    match shape {
        Shape::Boolean(index) => Ok(boolean_over(objs, b, edges, *index)?),
        Shape::Integer(indices) => Ok(integer_over(objs, b, edges, indices.as_slice())?),
        Shape::Choice(index, first, second) => {
            let test = b.rank(*index);
            found.set(test, true);
            let x = object_over(alloc, objs, machine, b, edges, first, found)?;
            found.set(test, false);
            let y = object_over(alloc, objs, machine, b, edges, second, found)?;
            Ok(choice_over(alloc, objs, b, edges, *index, x, y)?)
        }
        Shape::Constant(object) => constant(alloc, objs, machine, object),
        Shape::List(elements, tail) => {
            let mut all = object_over(alloc, objs, machine, b, edges, tail, found)?;
            for element in elements {
                let first = object_over(alloc, objs, machine, b, edges, element, found)?;
                all = objs.pair(first, all)?;
            }
            Ok(all)
        }
    }
}

/// The edge of an index.
fn edge_of(b: &Bindings, edges: &[Edge], index: u32) -> Edge
    requires count { length edges.now ≡ width_of b.now }
    requires among { Contains (indices_of b.now) index }
    ensures { result ≡ edge_at b.now edges.now index }
{
    edges[b.rank(index) as usize]
}

/// T or NIL by an index.
fn boolean_over<B: Bits>(
    objs: &mut Sobs<B>,
    b: &Bindings,
    edges: &[Edge],
    index: u32,
) -> Result<Sob, Full>
    requires whole { IsWhole B.Meaning objs.old }
    requires edges { All (B.live objs.old.store) edges.now }
    requires count { length edges.now ≡ width_of b.now }
    requires among { Contains (indices_of b.now) index }
    ensures keeps { Keeps B.Meaning objs.old objs.new }
    ensures object { IfOk result (λ r. IsObjectOver B.Meaning objs.old objs.new b.now edges.now (Boolean index) r) }
    ensures full { OnErr result (IsFull B.Meaning objs.new) }
{
    let edge = edge_of(b, edges, index);
    objs.boolean(edge)
}

/// An integer by its indices.
fn integer_over<B: Bits>(
    objs: &mut Sobs<B>,
    b: &Bindings,
    edges: &[Edge],
    indices: &[u32],
) -> Result<Sob, Full>
    requires whole { IsWhole B.Meaning objs.old }
    requires edges { All (B.live objs.old.store) edges.now }
    requires count { length edges.now ≡ width_of b.now }
    requires some { 1 ≤ length indices.now }
    requires most { length indices.now ≤ 128 }
    requires among { AreAmong indices.now (indices_of b.now) }
    ensures keeps { Keeps B.Meaning objs.old objs.new }
    ensures object { IfOk result (λ r. IsObjectOver B.Meaning objs.old objs.new b.now edges.now (Integer indices.now) r) }
    ensures full { OnErr result (IsFull B.Meaning objs.new) }
{
    let bits = bits_of(b, edges, indices);
    objs.integer(&bits)
}

/// One of two objects by an index.
fn choice_over<B: Bits>(
    alloc: Global,
    objs: &mut Sobs<B>,
    b: &Bindings,
    edges: &[Edge],
    index: u32,
    x: Sob,
    y: Sob,
) -> Result<Sob, SobFault>
    requires whole { IsWhole B.Meaning objs.old }
    requires edges { All (B.live objs.old.store) edges.now }
    requires count { length edges.now ≡ width_of b.now }
    requires among { Contains (indices_of b.now) index }
    requires first { IsLive objs.old x }
    requires second { IsLive objs.old y }
    ensures makes { Makes B.Meaning objs.old objs.new result (λ a. cond (holds_over B.Meaning objs.old.store b.now edges.now a index) (stands_for B.Meaning objs.old x a) (stands_for B.Meaning objs.old y a)) }
    ensures full { IsErrOf result fault.Full → IsFull B.Meaning objs.new }
{
    let edge = edge_of(b, edges, index);
    objs.merge(alloc, edge, x, y)
}

/// The edges of an integer's indices.
fn bits_of(b: &Bindings, edges: &[Edge], indices: &[u32]) -> Bitvec
    requires some { 1 ≤ length indices.now }
    requires most { length indices.now ≤ 128 }
    requires count { length edges.now ≡ width_of b.now }
    requires among { AreAmong indices.now (indices_of b.now) }
    ensures { result ≡ bits_over b.now edges.now indices.now }
{
    let mut bits = Bitvec::of(&[edge_of(b, edges, indices[0])]);
    for k in 1..indices.len() {
        bits.push(edge_of(b, edges, indices[k]));
    }
    bits
}
