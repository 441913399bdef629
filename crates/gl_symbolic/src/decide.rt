//! The symbolic decision of a theorem.

ghost use Rattle.std.specs.Prelude.{◌≡◌, ℕ, Bool, true, length};
ghost use Rattle.gl_logic.specs.Assignments.{value_at};
ghost use Rattle.gl_logic.specs.IsTermOf.{IsTermOf};
ghost use Rattle.gl_logic.specs.TermOf.{term_of};
ghost use Rattle.shape_spec.specs.Indices.{width_of};
ghost use Rattle.sym_objects.specs.Keeps.{Grows};
ghost use Rattle.sym_objects.specs.Seen.{IsWhole};
ghost use Rattle.gl_interp.specs.Causes.{Rests};
ghost use Rattle.gl_symbolic.specs.Decisions.{HasRunOut, IsProper, IsReady, IsShown};
ghost use Rattle.gl_symbolic.specs.Steps.{IsHypothesis, StandsUnder};

use super::certifying_store::{CertifyingStore, reach};
use super::decision::{Decision, given_up, stopped};
use super::narrow::index_edges;
use super::runs::{hypothesis, refutation};
use bfr_store::Edge;
use gl_interp::{SymEnv, symbolic_over};
use gl_logic::{Assignment, World};
use lisp_eval::Machine;
use shape_spec::{Mode, Part, Thm, bit_count};
use std::alloc::Global;
use sym_objects::Sobs;

/// Decides a theorem by one symbolic run, in a store that has no variable yet, beside a machine that has just begun.
///
/// The hypothesis first: where the store gives up on it, nothing is said. The conclusion is run under the hypothesis'
/// truth, and in each mode but Sat with the indices that the hypothesis fixes as constants.
pub fn decide_symbolically<B: CertifyingStore>(
    alloc: Global,
    objs: &mut Sobs<B>,
    machine: &mut Machine,
    world: &World,
    thm: &Thm,
    mode: Mode,
) -> Decision
    requires whole { IsWhole B.Meaning objs.old }
    requires width { B.width_of objs.old.store ≡ 0 }
    requires ready { IsReady world.now thm.now machine.old }
    requires hyp { IsTermOf world.now.definitions (term_of thm.now.hyp) }
    requires concl { IsTermOf world.now.definitions (term_of thm.now.concl) }
    ensures grows { Grows B.Meaning objs.old objs.new }
    ensures proper { IsProper world.now machine.old.steps machine.old.arena.limit thm.now result }
    ensures run_out { HasRunOut B.Meaning objs.new result }
    ensures shown { IsShown (B.shown objs.new.store) result }
    ensures rests { Rests machine.old machine.new }
{
    match hypothesis(alloc, objs, machine, world, thm) {
        Err(decision) => decision,
        Ok((env, hyp)) => match reach(alloc, objs, hyp) {
            Ok(None) => Decision::Vacuous,
            Ok(Some(found)) => match mode {
                Mode::Bdd | Mode::Param => {
                    conclude_narrowed(alloc, objs, machine, world, thm, hyp, &found)
                }
                Mode::Sat => conclude(alloc, objs, machine, world, thm, &env, hyp),
            },
            Err(fault) => given_up(fault),
        },
    }
}

/// Decides a theorem whose hypothesis this assignment meets, on an input in which each index that the hypothesis fixes is a
/// constant.
fn conclude_narrowed<B: CertifyingStore>(
    alloc: Global,
    objs: &mut Sobs<B>,
    machine: &mut Machine,
    world: &World,
    thm: &Thm,
    hyp: Edge,
    found: &Assignment,
) -> Decision
    requires whole { IsWhole B.Meaning objs.old }
    requires width { B.width_of objs.old.store ≡ width_of thm.now.bindings }
    requires ready { IsReady world.now thm.now machine.old }
    requires hyp_term { IsTermOf world.now.definitions (term_of thm.now.hyp) }
    requires concl { IsTermOf world.now.definitions (term_of thm.now.concl) }
    requires hyp { IsHypothesis B.Meaning objs.old world.now thm.now hyp }
    requires count { length found.now ≡ width_of thm.now.bindings }
    requires found { B.truth_of objs.old.store hyp (value_at found.now) ≡ true }
    ensures grows { Grows B.Meaning objs.old objs.new }
    ensures proper { IsProper world.now machine.old.steps machine.old.arena.limit thm.now result }
    ensures run_out { HasRunOut B.Meaning objs.new result }
    ensures shown { IsShown (B.shown objs.new.store) result }
    ensures rests { Rests machine.old machine.new }
{
    // every term of the world has a value
    let _count = world.count();
    match index_edges(alloc, objs, hyp, found, bit_count(&thm.bindings)) {
        Err(decision) => decision,
        Ok(edges) => match symbolic_over(alloc, &thm.bindings, &edges, objs, machine) {
            Err(fault) => stopped(Part::Hyp, fault),
            Ok(env) => conclude(alloc, objs, machine, world, thm, &env, hyp),
        },
    }
}

/// Decides a theorem whose hypothesis some assignment meets.
fn conclude<B: CertifyingStore>(
    alloc: Global,
    objs: &mut Sobs<B>,
    machine: &mut Machine,
    world: &World,
    thm: &Thm,
    env: &SymEnv,
    hyp: Edge,
) -> Decision
    requires whole { IsWhole B.Meaning objs.old }
    requires width { B.width_of objs.old.store ≡ width_of thm.now.bindings }
    requires ready { IsReady world.now thm.now machine.old }
    requires concl { IsTermOf world.now.definitions (term_of thm.now.concl) }
    requires input { StandsUnder B.Meaning objs.old thm.now hyp env.now }
    requires hyp { IsHypothesis B.Meaning objs.old world.now thm.now hyp }
    requires reaches { (a : ℕ → Bool) × (B.truth_of objs.old.store hyp a ≡ true) }
    ensures grows { Grows B.Meaning objs.old objs.new }
    ensures proper { IsProper world.now machine.old.steps machine.old.arena.limit thm.now result }
    ensures run_out { HasRunOut B.Meaning objs.new result }
    ensures shown { IsShown (B.shown objs.new.store) result }
    ensures rests { Rests machine.old machine.new }
{
    match refutation(alloc, objs, machine, world, thm, env, hyp) {
        Err(decision) => decision,
        Ok(edge) => match reach(alloc, objs, edge) {
            Ok(None) => Decision::Proved,
            Ok(Some(found)) => Decision::Refuted(found),
            Err(fault) => given_up(fault),
        },
    }
}
