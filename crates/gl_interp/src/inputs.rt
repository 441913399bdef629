//! Symbolic inputs: each bound variable with the symbolic object of its shape.

ghost use Rattle.std.specs.Prelude.{◌≡◌, ◌<◌, ◌+◌, max, ℕ, Bool, All, length, IfOk, IfErr, OnErr};
ghost use Rattle.shape_spec.specs.Indices.{width_of};
ghost use Rattle.sym_objects.specs.Keeps.{Grows, Keeps};
ghost use Rattle.sym_objects.specs.Seen.{IsFull, IsWhole};
ghost use Rattle.gl_interp.specs.Causes.{HasInputCause, Rests, StandsFor, StandsOver};

use super::constants::PlaceFault;
use super::env::SymEnv;
use super::fault::GlFault;
use super::shapes::object_over;
use bfr_store::{Bits, Edge, Full};
use gl_logic::Assignment;
use lisp_eval::Machine;
use shape_spec::{Bindings, bit_count};
use std::alloc::Global;
use sym_objects::Sobs;

/// The symbolic input over a vector of edges, one for each index in order: under each assignment it stands for the input
/// at the truths of the edges. Only Full, Cells and Memory come: Cells with an assignment on whose input the cells do not
/// suffice.
pub fn symbolic_over<B: Bits>(
    alloc: Global,
    b: &Bindings,
    edges: &[Edge],
    objs: &mut Sobs<B>,
    machine: &mut Machine,
) -> Result<SymEnv, GlFault>
    requires whole { IsWhole B.Meaning objs.old }
    requires edges { All (B.live objs.old.store) edges.now }
    requires count { length edges.now ≡ width_of b.now }
    ensures keeps { Keeps B.Meaning objs.old objs.new }
    ensures stands { IfOk result (StandsOver B.Meaning objs.old objs.new b.now edges.now) }
    ensures cause { IfErr result (HasInputCause B.Meaning objs.new b.now machine.old) }
    ensures rests { Rests machine.old machine.new }
{
    // Read for what it tells of the machine's arena: no cell is there twice.
    let _held = machine.mark();
    let mut found = Assignment::new(alloc, bit_count(b))?;
    let mut env = SymEnv::new(alloc);
    for i in 0..b.len() {
        match object_over(alloc, objs, machine, b, edges, b.shape(i), &mut found) {
            Ok(x) => env.push(b.variable(i), x)?,
            Err(PlaceFault::Cells) => return Err(GlFault::Cells(found)),
            Err(PlaceFault::Full) => return Err(GlFault::Full),
            Err(PlaceFault::Memory) => return Err(GlFault::Memory),
        }
    }
    Ok(env)
}

/// The symbolic input over the variables of a store that has none yet: under each assignment it stands for that
/// assignment's input. The store has a variable for each index afterwards.
pub fn symbolic<B: Bits>(
    alloc: Global,
    b: &Bindings,
    objs: &mut Sobs<B>,
    machine: &mut Machine,
) -> Result<SymEnv, GlFault>
    requires whole { IsWhole B.Meaning objs.old }
    requires width { B.width_of objs.old.store ≡ 0 }
    ensures grows { Grows B.Meaning objs.old objs.new }
    ensures stands { IfOk result (StandsFor B.Meaning objs.new b.now) }
    ensures cause { IfErr result (HasInputCause B.Meaning objs.new b.now machine.old) }
    ensures rests { Rests machine.old machine.new }
{
    let mut edges = Vec::new(alloc);
    for k in 0..bit_count(b) {
        let edge = variable(objs, k)?;
        edges.push(edge)?;
    }
    symbolic_over(alloc, b, edges.as_slice(), objs, machine)
}

/// The edge of a variable.
fn variable<B: Bits>(objs: &mut Sobs<B>, k: u32) -> Result<Edge, Full>
    requires whole { IsWhole B.Meaning objs.old }
    requires few { k < 4294967295 }
    ensures grows { Grows B.Meaning objs.old objs.new }
    ensures width { IfOk result (λ e. B.width_of objs.new.store ≡ max (B.width_of objs.old.store) (k + 1)) }
    ensures live { IfOk result (λ e. B.live objs.new.store e) }
    ensures truth { IfOk result (λ e. (a : ℕ → Bool) → B.truth_of objs.new.store e a ≡ a k) }
    ensures full { OnErr result (IsFull B.Meaning objs.new) }
{
    objs.store().var(k)
}
