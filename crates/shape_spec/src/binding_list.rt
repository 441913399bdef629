//! Bindings of variables to shapes.

ghost use Rattle.std.specs.Prelude.{◌≡◌, ◌<◌, ◌≤◌, ◌+◌, [], ◌∷◌, ◌++◌, true, cond, length, slice_get, Some, OnOk, OnErr, IfOk, MatchOption};
ghost use Rattle.std.specs.List.Sorted.{IsNonDecreasing};
ghost use Rattle.shape_spec.specs.ShapeOf.{shape_of};
ghost use Rattle.shape_spec.specs.Indices.{variables_of, shapes_of, indices_in, indices_of as indices_bound, width_of, rank_in, IsNotIn, AreApart, AllBelow, IsShape, IsBindings};
ghost use Rattle.shape_spec.specs.BindingOf.{Pushes};
ghost use Rattle.shape_spec.specs.Order.{Joins};
ghost use Rattle.shape_spec.specs.InputMeant.{input_meant};
ghost use Rattle.gl_logic.specs.Assignments.{value_at};

use super::inputs::Inputs;
use super::objects::object_of;
use super::order::{insert_all, rank};
use super::shape::Shape;
use gl_logic::{Assignment, NoMemory, TextId};
use std::alloc::Global;
use std::marker::Model;

/// Variables with their shapes, in the order in which they are bound. Contracts see the list of pairs of a
/// variable's number and its shape.
///
/// No variable is bound twice, and no index stands twice. There are at most 1,024 indices, each below
/// 1,000,000, and each integer has 1 to 128 of them.
#[derive(Drop)]
pub struct Bindings {
    items: Vec<Binding>,
    // the indices of all shapes in order
    sorted: Vec<u32>,
}

#[derive(Drop)]
struct Binding {
    variable: TextId,
    shape: Shape,
}

impl Model for Bindings {
    ghost use Rattle.std.specs.Prelude.{List, ℕ, map};
    ghost use Rattle.std.specs.Coded.{coded×, coded_ℕ, coded_list};
    ghost use Rattle.shape_spec.specs.ShapeSeen.{ShapeSeen, coded_shape};

    ghost Value = { List (ℕ × ShapeSeen) };

    ghost coded = { coded_list (coded× coded_ℕ coded_shape) };

    ghost use Rattle.shape_spec.specs.BindingOf.{bindings_of, AreInOrder};

    ghost view = { λ b. bindings_of b.items.items };

    ghost invariant = { λ b. AreInOrder (bindings_of b.items.items) b.sorted.items };
}

impl Bindings {
    /// No variables. Takes no memory.
    pub fn new(alloc: Global) -> Bindings
        ensures { result ≡ [] }
    {
        Bindings {
            items: Vec::new(alloc),
            sorted: Vec::new(alloc),
        }
    }

    /// Binds a variable to a shape, behind those that are bound. The shape is lost where memory runs out.
    pub fn push(&mut self, alloc: Global, variable: TextId, shape: Shape) -> Result<(), NoMemory>
        requires variable { IsNotIn variable.number (variables_of self.old) }
        requires shape { IsShape (shape_of shape) }
        requires apart { AreApart (indices_bound self.old ++ indices_in (shape_of shape)) }
        requires below { AllBelow 1000000 (indices_in (shape_of shape)) }
        requires few { width_of self.old + length (indices_in (shape_of shape)) ≤ 1024 }
        ensures ok { OnOk result (self.new ≡ self.old ++ (variable.number, shape_of shape) ∷ []) }
        ensures err { OnErr result (self.new ≡ self.old) }
    {
        self.try_push(alloc, variable, shape)?;
        Ok(())
    }

    /// The same of a shape whose indices may stand twice. False where one does, which binds nothing.
    pub(crate) fn try_push(
        &mut self,
        alloc: Global,
        variable: TextId,
        shape: Shape,
    ) -> Result<bool, NoMemory>
        requires variable { IsNotIn variable.number (variables_of self.old) }
        requires shape { IsShape (shape_of shape) }
        requires below { AllBelow 1000000 (indices_in (shape_of shape)) }
        requires few { width_of self.old + length (indices_in (shape_of shape)) ≤ 1024 }
        ensures ok { IfOk result (λ new. Pushes new self.old (variable.number, shape_of shape) self.new) }
        ensures err { OnErr result (self.new ≡ self.old) }
    {
        let sorted = match joined(alloc, self.sorted.as_slice(), &shape) {
            Ok(Some(sorted)) => sorted,
            Ok(None) => {
                drop(shape);
                return Ok(false);
            }
            Err(fault) => {
                drop(shape);
                return Err(fault);
            }
        };
        self.items.push(Binding { variable, shape })?;
        self.sorted = sorted;
        Ok(true)
    }

    /// How many variables there are. With it stands what all bindings keep.
    pub fn len(&self) -> u64
        ensures len { result ≡ length self.now }
        ensures proper { IsBindings self.now }
    {
        self.items.len() as u64
    }

    /// The variable at a place, from 0.
    pub fn variable(&self, i: u64) -> TextId
        requires { i < length self.now }
        ensures { slice_get (variables_of self.now) i ≡ Some result.number }
    {
        self.items[i as usize].variable
    }

    /// The shape of the variable at a place, from 0.
    pub fn shape(&self, i: u64) -> &Shape
        requires { i < length self.now }
        ensures { slice_get (shapes_of self.now) i ≡ Some (shape_of result.now) }
    {
        &self.items[i as usize].shape
    }

    /// How many indices of the bindings are smaller than this one: the variable of a bit store, and the
    /// place in an assignment, that an index of the bindings has. Takes no memory.
    pub fn rank(&self, index: u32) -> u32
        ensures { result ≡ rank_in (indices_bound self.now) index }
    {
        rank(self.sorted.as_slice(), index) as u32
    }
}

/// Indices in order with those of a shape. None where one stands twice then.
fn joined(alloc: Global, sorted: &[u32], shape: &Shape) -> Result<Option<Vec<u32>>, NoMemory>
    requires { IsNonDecreasing sorted.now }
    ensures { IfOk result (λ all. MatchOption all (AreApart (sorted.now ++ indices_in (shape_of shape.now)) → ⊥) (λ new. Joins true sorted.now (indices_in (shape_of shape.now)) new.items)) }
{
    let mut more = Vec::new(alloc);
    shape.add_indices(&mut more)?;
    let mut all = Vec::from_slice(alloc, sorted)?;
    if insert_all(&mut all, more.as_slice())? {
        Ok(Some(all))
    } else {
        Ok(None)
    }
}

/// How many indices the bindings have, and what all bindings keep. Takes no memory.
pub fn bit_count(b: &Bindings) -> u32
    ensures count { result ≡ width_of b.now }
    ensures proper { IsBindings b.now }
{
    b.sorted.len() as u32
}

/// The input of an assignment: each variable with the object of its shape, in the order of the bindings.
pub fn input_of(alloc: Global, b: &Bindings, a: &Assignment) -> Result<Inputs, NoMemory>
    requires { length a.now ≡ width_of b.now }
    ensures { IfOk result (λ s. s ≡ input_meant b.now (value_at a.now)) }
{
    let sorted = b.sorted.as_slice();
    let mut inputs = Inputs::new(alloc);
    for binding in &b.items {
        let object = object_of(alloc, &binding.shape, sorted, a)?;
        inputs.push(binding.variable, object)?;
    }
    Ok(inputs)
}
