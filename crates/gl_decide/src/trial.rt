//! One input tried.

ghost use Rattle.std.specs.Prelude.{◌≡◌, All};
ghost use Rattle.gl_logic.specs.TermOf.{term_of};
ghost use Rattle.gl_logic.specs.IsTermOf.{IsTermOf};
ghost use Rattle.shape_spec.specs.Theorems.{IsMet};
ghost use Rattle.lisp_eval.specs.Answers.{IsLiveBinding};
ghost use Rattle.lisp_eval.specs.States.{env_of};
ghost use Rattle.gl_decide.specs.Placed.{Rests};
ghost use Rattle.shape_spec.specs.TheoremSeen.{theorem_seen};
ghost use Rattle.gl_decide.specs.TheoremAt.{input_at};
ghost use Rattle.gl_decide.specs.Trials.{IsReady, HoldsInput, IsInputOf, IsProperTrial};

use super::trial_input::{place_input, truth};
use gl_logic::World;
use lisp_eval::{Env, EvalFault, Machine};
use shape_spec::{Part, Thm, input_numbered};
use std::alloc::Global;

/// What one input tells.
#[derive(Clone, Copy, Debug, PartialEq, Eq)]
pub enum Trial {
    /// It does not meet the hypothesis.
    Unmet,
    /// It meets the hypothesis and the conclusion.
    Passes,
    /// It meets the hypothesis and makes the conclusion NIL.
    Refutes,
    /// A part has no answer on it.
    Stopped(Part, EvalFault),
}

/// What the conclusion tells on an input that meets the hypothesis.
fn concluded(machine: &mut Machine, world: &World, thm: &Thm, env: &Env) -> Trial
    requires concl { IsTermOf world.now.definitions (term_of thm.now.concl) }
    requires holds { HoldsInput world.now (theorem_seen thm.now) (env_of machine.old.arena.objects env.now) machine.old }
    requires env { All (IsLiveBinding machine.old.arena.objects) env.now }
    requires input { IsInputOf (theorem_seen thm.now) (env_of machine.old.arena.objects env.now) }
    requires met { IsMet world.now.definitions (term_of thm.now.hyp) (env_of machine.old.arena.objects env.now) }
    ensures trial { IsProperTrial world.now machine.old.steps machine.old.arena.limit (theorem_seen thm.now) (env_of machine.old.arena.objects env.now) result }
    ensures rests { Rests world.now machine.old machine.new }
{
    match truth(machine, world, &thm.concl, env) {
        Ok(true) => Trial::Passes,
        Ok(false) => Trial::Refutes,
        Err(fault) => Trial::Stopped(Part::Concl, fault),
    }
}

/// What an input tells whose variables are bound.
fn tried_on(machine: &mut Machine, world: &World, thm: &Thm, env: &Env) -> Trial
    requires hyp { IsTermOf world.now.definitions (term_of thm.now.hyp) }
    requires concl { IsTermOf world.now.definitions (term_of thm.now.concl) }
    requires holds { HoldsInput world.now (theorem_seen thm.now) (env_of machine.old.arena.objects env.now) machine.old }
    requires env { All (IsLiveBinding machine.old.arena.objects) env.now }
    requires input { IsInputOf (theorem_seen thm.now) (env_of machine.old.arena.objects env.now) }
    ensures trial { IsProperTrial world.now machine.old.steps machine.old.arena.limit (theorem_seen thm.now) (env_of machine.old.arena.objects env.now) result }
    ensures rests { Rests world.now machine.old machine.new }
{
    match truth(machine, world, &thm.hyp, env) {
        Ok(true) => concluded(machine, world, thm, env),
        Ok(false) => Trial::Unmet,
        Err(fault) => Trial::Stopped(Part::Hyp, fault),
    }
}

/// Tries the input of a number. The machine stands afterwards as before.
pub(crate) fn tried(
    alloc: Global,
    machine: &mut Machine,
    world: &World,
    thm: &Thm,
    number: u64,
) -> Trial
    requires hyp { IsTermOf world.now.definitions (term_of thm.now.hyp) }
    requires concl { IsTermOf world.now.definitions (term_of thm.now.concl) }
    requires ready { IsReady world.now (theorem_seen thm.now) machine.old }
    ensures trial { IsProperTrial world.now machine.old.steps machine.old.arena.limit (theorem_seen thm.now) (input_at (theorem_seen thm.now) number) result }
    ensures rests { Rests world.now machine.old machine.new }
{
    let Ok(input) = input_numbered(alloc, &thm.bindings, number) else {
        return Trial::Stopped(Part::Hyp, EvalFault::Memory);
    };
    // every term of the world has a value
    let _count = world.count();
    let mark = machine.mark();
    match place_input(alloc, machine, &input) {
        Ok(env) => {
            let trial = tried_on(machine, world, thm, &env);
            machine.back(mark);
            trial
        }
        Err(fault) => {
            machine.back(mark);
            Trial::Stopped(Part::Hyp, fault)
        }
    }
}
