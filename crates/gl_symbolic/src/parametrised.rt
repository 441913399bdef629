//! Decisions whose conclusion is run on a parametrised input.
//!
//! The input stands, under every assignment, for one that meets the hypothesis, and each input that meets it comes so: a
//! parametric representation, after Aagaard, Jones and Seger ("Formal verification using parametric representations of
//! Boolean constraints"), as GL itself makes one (Swords and Davis, "Bit-blasting ACL2 theorems"). An assignment that is found
//! of such a run goes through the vector before it is told.

ghost use Rattle.std.specs.Prelude.{◌≡◌, ◌≤◌, ◌<◌, ℕ, Bool, false, List, map, length, All, IfOk, IfSome, IfNone};
ghost use Rattle.gl_logic.specs.Assignments.{value_at};
ghost use Rattle.gl_logic.specs.IsTermOf.{IsTermOf};
ghost use Rattle.gl_logic.specs.TermOf.{term_of};
ghost use Rattle.shape_spec.specs.Indices.{width_of};
ghost use Rattle.sym_objects.specs.Keeps.{Grows};
ghost use Rattle.sym_objects.specs.Seen.{IsFull, IsWhole};
ghost use Rattle.sym_prims.specs.Applying.{Leaves};
ghost use Rattle.gl_interp.specs.Causes.{Rests};
ghost use Rattle.gl_symbolic.specs.Decisions.{HasRunOut, IsProper, IsReady, IsShown};
ghost use Rattle.gl_symbolic.specs.Parameters.{HasWidth, IsStill, Parametrises, StandsAt, TellsConclusion, moved_by};
ghost use Rattle.gl_symbolic.specs.Steps.{IsHypothesis};

use super::certifying_store::{CertifyingStore, reach};
use super::condition::condition;
use super::decision::{Decision, given_up, stopped};
use super::runs::hypothesis;
use bdd_param::{Edges, ParamFault, parametrise};
use bdd_store::Bdd;
use bfr_store::{Bits, Edge, Meaning};
use gl_interp::{GlFault, SymEnv, symbolic_over};
use gl_logic::{Assignment, NoMemory, World};
use lisp_eval::Machine;
use shape_spec::{Part, Thm, bit_count};
use std::alloc::Global;
use sym_objects::Sobs;
use sym_prims::store_calls::{complement, constant_edge};

/// The truth of a function under an assignment.
fn truth<B: Bits>(objs: &mut Sobs<B>, edge: Edge, a: &Assignment) -> bool
    requires whole { IsWhole B.Meaning objs.old }
    requires edge { B.live objs.old.store edge }
    requires width { length a.now ≡ B.width_of objs.old.store }
    ensures leaves { Leaves B.Meaning objs.old objs.new }
    ensures truth { result ≡ B.truth_of objs.old.store edge (value_at a.now) }
{
    objs.store().value(edge, a)
}

/// The assignment that a vector makes of one.
fn through<B: Bits>(
    alloc: Global,
    objs: &mut Sobs<B>,
    edges: &[Edge],
    a: &Assignment,
) -> Result<Assignment, NoMemory>
    requires whole { IsWhole B.Meaning objs.old }
    requires edges { All (B.live objs.old.store) edges.now }
    requires few { length edges.now ≤ 1024 }
    requires width { length a.now ≡ B.width_of objs.old.store }
    ensures leaves { Leaves B.Meaning objs.old objs.new }
    ensures through { IfOk result (λ b. b ≡ map (λ e. B.truth_of objs.old.store e (value_at a.now)) edges.now) }
{
    let mut found = Assignment::new(alloc, edges.len() as u32)?;
    for k in 0..edges.len() {
        let holds = truth(objs, edges[k], a);
        found.set(k as u32, holds);
    }
    Ok(found)
}

/// A fault whose assignment is the one that a vector makes of its own.
fn moved<B: Bits>(
    alloc: Global,
    objs: &mut Sobs<B>,
    edges: &[Edge],
    fault: GlFault,
) -> Result<GlFault, NoMemory>
    requires whole { IsWhole B.Meaning objs.old }
    requires edges { All (B.live objs.old.store) edges.now }
    requires few { length edges.now ≤ 1024 }
    requires width { HasWidth (B.width_of objs.old.store) fault }
    ensures leaves { Leaves B.Meaning objs.old objs.new }
    ensures still { IsStill fault → objs.new ≡ objs.old }
    ensures moved { IfOk result (λ f. f ≡ moved_by (λ a. map (λ e. B.truth_of objs.old.store e a) edges.now) fault) }
{
    match fault {
        GlFault::Clock(a) => Ok(GlFault::Clock(through(alloc, objs, edges, &a)?)),
        GlFault::Wide(a) => Ok(GlFault::Wide(through(alloc, objs, edges, &a)?)),
        GlFault::Steps(a) => Ok(GlFault::Steps(through(alloc, objs, edges, &a)?)),
        GlFault::Cells(a) => Ok(GlFault::Cells(through(alloc, objs, edges, &a)?)),
        GlFault::Full => Ok(GlFault::Full),
        GlFault::Spent => Ok(GlFault::Spent),
        GlFault::Memory => Ok(GlFault::Memory),
    }
}

/// Decides a theorem whose conclusion's input is the one at a vector that parametrises the hypothesis.
pub(crate) fn conclude_parametrised<B: CertifyingStore>(
    alloc: Global,
    objs: &mut Sobs<B>,
    machine: &mut Machine,
    world: &World,
    thm: &Thm,
    hyp: Edge,
    edges: &[Edge],
) -> Decision
    requires whole { IsWhole B.Meaning objs.old }
    requires width { B.width_of objs.old.store ≡ width_of thm.now.bindings }
    requires few { width_of thm.now.bindings ≤ 1024 }
    requires ready { IsReady world.now thm.now machine.old }
    requires hyp_term { IsTermOf world.now.definitions (term_of thm.now.hyp) }
    requires concl { IsTermOf world.now.definitions (term_of thm.now.concl) }
    requires hyp { IsHypothesis B.Meaning objs.old world.now thm.now hyp }
    requires vector { Parametrises B.Meaning objs.old hyp (width_of thm.now.bindings) edges.now }
    ensures grows { Grows B.Meaning objs.old objs.new }
    ensures proper { IsProper world.now machine.old.steps machine.old.arena.limit thm.now result }
    ensures run_out { HasRunOut B.Meaning objs.new result }
    ensures shown { IsShown (B.shown objs.new.store) result }
    ensures rests { Rests machine.old machine.new }
{
    // every term of the world has a value
    let _count = world.count();
    match symbolic_over(alloc, &thm.bindings, edges, objs, machine) {
        Err(fault) => stopped(Part::Hyp, fault),
        Ok(env) => conclude_at(alloc, objs, machine, world, thm, hyp, edges, &env),
    }
}

/// The same where the environment stands for that input.
fn conclude_at<B: CertifyingStore>(
    alloc: Global,
    objs: &mut Sobs<B>,
    machine: &mut Machine,
    world: &World,
    thm: &Thm,
    hyp: Edge,
    edges: &[Edge],
    env: &SymEnv,
) -> Decision
    requires whole { IsWhole B.Meaning objs.old }
    requires width { B.width_of objs.old.store ≡ width_of thm.now.bindings }
    requires few { width_of thm.now.bindings ≤ 1024 }
    requires ready { IsReady world.now thm.now machine.old }
    requires concl { IsTermOf world.now.definitions (term_of thm.now.concl) }
    requires hyp { IsHypothesis B.Meaning objs.old world.now thm.now hyp }
    requires vector { Parametrises B.Meaning objs.old hyp (width_of thm.now.bindings) edges.now }
    requires input { StandsAt B.Meaning objs.old thm.now edges.now env.now }
    ensures grows { Grows B.Meaning objs.old objs.new }
    ensures proper { IsProper world.now machine.old.steps machine.old.arena.limit thm.now result }
    ensures run_out { HasRunOut B.Meaning objs.new result }
    ensures shown { IsShown (B.shown objs.new.store) result }
    ensures rests { Rests machine.old machine.new }
{
    let always = constant_edge(objs, true);
    match condition(
        alloc,
        objs,
        machine,
        world,
        &thm.concl,
        env,
        thm.concl_clk,
        always,
    ) {
        Err(fault) => match moved(alloc, objs, edges, fault) {
            Ok(fault) => stopped(Part::Concl, fault),
            Err(_) => Decision::Memory,
        },
        Ok(concl) => refute_at(alloc, objs, world, thm, hyp, edges, concl),
    }
}

/// Decides whether some assignment makes the conclusion NIL on its input.
fn refute_at<B: CertifyingStore>(
    alloc: Global,
    objs: &mut Sobs<B>,
    world: &World,
    thm: &Thm,
    hyp: Edge,
    edges: &[Edge],
    concl: Edge,
) -> Decision
    requires whole { IsWhole B.Meaning objs.old }
    requires width { B.width_of objs.old.store ≡ width_of thm.now.bindings }
    requires few { width_of thm.now.bindings ≤ 1024 }
    requires hyp { IsHypothesis B.Meaning objs.old world.now thm.now hyp }
    requires vector { Parametrises B.Meaning objs.old hyp (width_of thm.now.bindings) edges.now }
    requires concl { TellsConclusion B.Meaning objs.old world.now thm.now edges.now concl }
    ensures grows { Grows B.Meaning objs.old objs.new }
    ensures proper { (steps cells : ℕ) → IsProper world.now steps cells thm.now result }
    ensures run_out { HasRunOut B.Meaning objs.new result }
    ensures shown { IsShown (B.shown objs.new.store) result }
{
    let fails = complement(objs, concl);
    match reach(alloc, objs, fails) {
        Ok(None) => Decision::Proved,
        Ok(Some(found)) => match through(alloc, objs, edges, &found) {
            Ok(input) => Decision::Refuted(input),
            Err(_) => Decision::Memory,
        },
        Err(fault) => given_up(fault),
    }
}

/// The vector that parametrises a function of the lent store.
fn parameters(alloc: Global, objs: &mut Sobs<Bdd>, hyp: Edge) -> Result<Edges, ParamFault>
    requires whole { IsWhole ⟦<Bdd as Meaning>⟧ objs.old }
    requires hyp { ⟦<Bdd as Meaning>⟧.live objs.old.store hyp }
    ensures leaves { Leaves ⟦<Bdd as Meaning>⟧ objs.old objs.new }
    ensures vector { IfOk result (Parametrises ⟦<Bdd as Meaning>⟧ objs.new hyp objs.old.store.width) }
    ensures empty { result ≡ Err ParamFault.Empty → (a : ℕ → Bool) → ⟦<Bdd as Meaning>⟧.truth_of objs.old.store hyp a ≡ false }
    ensures full { result ≡ Err ParamFault.Full → IsFull ⟦<Bdd as Meaning>⟧ objs.new }
{
    let store = objs.store();
    let width = store.width();
    parametrise(alloc, store, hyp, width)
}

/// A decision that did not run out of nodes.
fn unless_full(decision: Decision) -> Option<Decision>
    ensures same { IfSome result (λ d. d ≡ decision) }
    ensures full { IfNone result (decision ≡ Decision.Full) }
{
    match decision {
        Decision::Full => None,
        decision => Some(decision),
    }
}

/// Decides a theorem over decision diagrams, in a store that has no variable yet, with its conclusion run on an input that
/// meets the hypothesis under every assignment. None where the nodes don't suffice for that, though they did for the
/// hypothesis.
pub(crate) fn decide_parametrised(
    alloc: Global,
    objs: &mut Sobs<Bdd>,
    machine: &mut Machine,
    world: &World,
    thm: &Thm,
) -> Option<Decision>
    requires whole { IsWhole ⟦<Bdd as Meaning>⟧ objs.old }
    requires width { objs.old.store.width ≡ 0 }
    requires ready { IsReady world.now thm.now machine.old }
    requires hyp { IsTermOf world.now.definitions (term_of thm.now.hyp) }
    requires concl { IsTermOf world.now.definitions (term_of thm.now.concl) }
    ensures grows { Grows ⟦<Bdd as Meaning>⟧ objs.old objs.new }
    ensures proper { IfSome result (IsProper world.now machine.old.steps machine.old.arena.limit thm.now) }
    ensures run_out { IfSome result (HasRunOut ⟦<Bdd as Meaning>⟧ objs.new) }
    ensures full { IfNone result (IsFull ⟦<Bdd as Meaning>⟧ objs.new) }
    ensures rests { Rests machine.old machine.new }
{
    match hypothesis(alloc, objs, machine, world, thm) {
        Err(decision) => Some(decision),
        Ok((_env, hyp)) => match parameters(alloc, objs, hyp) {
            Ok(edges) => {
                // a theorem has at most 1,024 indices
                let _few = bit_count(&thm.bindings);
                unless_full(conclude_parametrised(
                    alloc,
                    objs,
                    machine,
                    world,
                    thm,
                    hyp,
                    edges.as_slice(),
                ))
            }
            Err(ParamFault::Empty) => Some(Decision::Vacuous),
            Err(ParamFault::Full) => None,
            Err(ParamFault::Memory) => Some(Decision::Memory),
        },
    }
}
