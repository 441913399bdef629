//! The symbolic runs of a theorem's two parts.

ghost use Rattle.std.specs.Prelude.{◌≡◌, ℕ, Bool, true, IfOk, IfErr};
ghost use Rattle.gl_logic.specs.IsTermOf.{IsTermOf};
ghost use Rattle.gl_logic.specs.TermOf.{term_of};
ghost use Rattle.shape_spec.specs.Indices.{width_of};
ghost use Rattle.sym_objects.specs.Keeps.{Grows};
ghost use Rattle.sym_objects.specs.Seen.{IsWhole};
ghost use Rattle.sym_prims.specs.Applying.{Leaves};
ghost use Rattle.gl_interp.specs.Causes.{Rests, StandsFor};
ghost use Rattle.gl_symbolic.specs.Decisions.{HasRunOut, IsProper, IsReady, IsUndecided};
ghost use Rattle.gl_symbolic.specs.Steps.{IsHypothesis, IsRefutation, StandsUnder};

use super::condition::condition;
use super::decision::{Decision, stopped};
use bfr_store::{Bits, Edge};
use gl_interp::{SymEnv, symbolic};
use gl_logic::World;
use lisp_eval::Machine;
use shape_spec::{Part, Thm};
use std::alloc::Global;
use sym_objects::Sobs;
use sym_prims::store_calls::{complement, conjunction, constant_edge};

/// Runs the hypothesis on the theorem's symbolic input, in a store that has no variable yet. The input, and the edge that
/// tells under each assignment whether its input meets the hypothesis; or the decision that a fault is.
pub fn hypothesis<B: Bits>(
    alloc: Global,
    objs: &mut Sobs<B>,
    machine: &mut Machine,
    world: &World,
    thm: &Thm,
) -> Result<(SymEnv, Edge), Decision>
    requires whole { IsWhole B.Meaning objs.old }
    requires width { B.width_of objs.old.store ≡ 0 }
    requires ready { IsReady world.now thm.now machine.old }
    requires hyp { IsTermOf world.now.definitions (term_of thm.now.hyp) }
    ensures grows { Grows B.Meaning objs.old objs.new }
    ensures input { IfOk result (λ r. StandsFor B.Meaning objs.new thm.now.bindings r.0) }
    ensures edge { IfOk result (λ r. IsHypothesis B.Meaning objs.new world.now thm.now r.1) }
    ensures undecided { IfErr result IsUndecided }
    ensures proper { IfErr result (IsProper world.now machine.old.steps machine.old.arena.limit thm.now) }
    ensures run_out { IfErr result (HasRunOut B.Meaning objs.new) }
    ensures rests { Rests machine.old machine.new }
{
    // every term of the world has a value
    let _count = world.count();
    match symbolic(alloc, &thm.bindings, objs, machine) {
        Err(fault) => Err(stopped(Part::Hyp, fault)),
        Ok(env) => {
            let always = constant_edge(objs, true);
            match condition(
                alloc,
                objs,
                machine,
                world,
                &thm.hyp,
                &env,
                thm.hyp_clk,
                always,
            ) {
                Ok(edge) => Ok((env, edge)),
                Err(fault) => Err(stopped(Part::Hyp, fault)),
            }
        }
    }
}

/// Runs the conclusion under the hypothesis, which some assignment meets. The edge that is true exactly under the
/// assignments whose inputs meet the hypothesis and make the conclusion NIL; or the decision that a fault is.
pub fn refutation<B: Bits>(
    alloc: Global,
    objs: &mut Sobs<B>,
    machine: &mut Machine,
    world: &World,
    thm: &Thm,
    env: &SymEnv,
    hyp: Edge,
) -> Result<Edge, Decision>
    requires whole { IsWhole B.Meaning objs.old }
    requires width { B.width_of objs.old.store ≡ width_of thm.now.bindings }
    requires ready { IsReady world.now thm.now machine.old }
    requires concl { IsTermOf world.now.definitions (term_of thm.now.concl) }
    requires input { StandsUnder B.Meaning objs.old thm.now hyp env.now }
    requires hyp { IsHypothesis B.Meaning objs.old world.now thm.now hyp }
    requires reaches { (a : ℕ → Bool) × (B.truth_of objs.old.store hyp a ≡ true) }
    ensures leaves { Leaves B.Meaning objs.old objs.new }
    ensures edge { IfOk result (IsRefutation B.Meaning objs.new world.now thm.now) }
    ensures undecided { IfErr result IsUndecided }
    ensures proper { IfErr result (IsProper world.now machine.old.steps machine.old.arena.limit thm.now) }
    ensures run_out { IfErr result (HasRunOut B.Meaning objs.new) }
    ensures rests { Rests machine.old machine.new }
{
    match condition(
        alloc,
        objs,
        machine,
        world,
        &thm.concl,
        env,
        thm.concl_clk,
        hyp,
    ) {
        Err(fault) => Err(stopped(Part::Concl, fault)),
        Ok(concl) => {
            let fails = complement(objs, concl);
            match conjunction(objs, hyp, fails) {
                Ok(edge) => Ok(edge),
                Err(_) => Err(Decision::Full),
            }
        }
    }
}
