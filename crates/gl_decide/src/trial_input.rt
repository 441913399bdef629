//! Inputs in a machine, and what terms make of them.

ghost use Rattle.std.specs.Prelude.{◌≡◌, All, IfOk, IfErr};
ghost use Rattle.gl_logic.specs.TermOf.{term_of};
ghost use Rattle.gl_logic.specs.IsTermOf.{IsTermOf};
ghost use Rattle.gl_logic.specs.ObjectEq.{is_nil as is_nil_object};
ghost use Rattle.gl_logic.specs.WorldSeen.{WorldSeen};
ghost use Rattle.hons_arena.specs.Held.{IsWhole};
ghost use Rattle.hons_arena.specs.Ids.{object_at, IsLive};
ghost use Rattle.lisp_eval.specs.Answers.{IsLiveBinding};
ghost use Rattle.lisp_eval.specs.MachineCalls.{KeepsSettings};
ghost use Rattle.lisp_eval.specs.Machines.{Fits};
ghost use Rattle.lisp_eval.specs.States.{env_of};
ghost use Rattle.gl_decide.specs.Placed.{Places, LacksCells, IsTruthOf, HasLicense, Rests};

use gl_logic::{Term, World};
use hons_arena::{HonsArena, Id, Kind};
use lisp_eval::{Env, EvalFault, Machine};
use shape_spec::Inputs;
use std::alloc::Global;

/// Places the objects of an input in a machine, and binds its variables to their ids.
pub(crate) fn place_input(
    alloc: Global,
    machine: &mut Machine,
    input: &Inputs,
) -> Result<Env, EvalFault>
    requires whole { IsWhole machine.old.arena }
    ensures ok { IfOk result (Places input.now machine.old machine.new) }
    ensures err { IfErr result (LacksCells input.now machine.old machine.new) }
    ensures settings { KeepsSettings machine.old machine.new }
    ensures memos { machine.new.memos ≡ machine.old.memos }
    ensures fits { (w : WorldSeen) → Fits w machine.old → Fits w machine.new }
{
    let mut env = Env::new(alloc);
    for i in 0..input.len() {
        let (variable, object) = input.at(i);
        let Ok(id) = machine.input(object) else {
            return Err(EvalFault::Cells);
        };
        let Ok(()) = env.push(variable, id) else {
            return Err(EvalFault::Memory);
        };
    }
    Ok(env)
}

/// Whether an id names NIL.
fn is_nil(arena: &HonsArena, id: Id) -> bool
    requires { IsLive arena.now.objects id }
    ensures { result ≡ is_nil_object (object_at arena.now.objects id) }
{
    match arena.kind(id) {
        Kind::Symbol(name) => name.number == 0,
        _ => false,
    }
}

/// Whether a term's value is other than NIL. The arena stands afterwards as before, and nothing is kept.
pub(crate) fn truth(
    machine: &mut Machine,
    world: &World,
    term: &Term,
    env: &Env,
) -> Result<bool, EvalFault>
    requires fits { Fits world.now machine.old }
    requires term { IsTermOf world.now.definitions (term_of term.now) }
    requires env { All (IsLiveBinding machine.old.arena.objects) env.now }
    ensures truth { IfOk result (IsTruthOf world.now (env_of machine.old.arena.objects env.now) (term_of term.now)) }
    ensures fault { IfErr result (HasLicense world.now machine.old.functions (env_of machine.old.arena.objects env.now) (term_of term.now) machine.old.steps machine.old.arena) }
    ensures rests { Rests world.now machine.old machine.new }
{
    let mark = machine.mark();
    match machine.eval(world, term, env) {
        Ok(id) => {
            let met = !is_nil(machine.arena(), id);
            machine.back(mark);
            Ok(met)
        }
        Err(fault) => {
            machine.back(mark);
            Err(fault)
        }
    }
}
