//! The turns that do a work.

ghost use Rattle.std.specs.Prelude.{◌≡◌, ℕ, Bool, false, [], Some, All, length, IfOk, IfErr, IfSome, IsSome, IsTrue, MatchOption};
ghost use Rattle.gl_logic.specs.ConstantCall.{constant_call};
ghost use Rattle.gl_logic.specs.Evaluate.{HasValue};
ghost use Rattle.gl_logic.specs.IsTermOf.{arity_in};
ghost use Rattle.lisp_eval.specs.Machines.{Fits};
ghost use Rattle.sym_objects.specs.Seen.{IsConstant, IsLive, IsWhole, stands_for};
ghost use Rattle.sym_prims.specs.Applying.{Leaves};
ghost use Rattle.gl_interp.specs.Calls.{values_under};
ghost use Rattle.gl_interp.specs.Causes.{Rests};
ghost use Rattle.gl_interp.specs.declared.frame.Path.{Path};
ghost use Rattle.gl_interp.specs.Branches.{IsAgain};
ghost use Rattle.gl_interp.specs.Running.{AreTerms, IsAsked, IsGiven, IsWitnessed, IsWorkOf, Ready, Turns};
ghost use Rattle.gl_interp.specs.TurnFaults.{HasMachineCause, HasPlainCause, HasTurnCause};
ghost use Rattle.gl_interp.specs.TurnsLeft.{Falls};

use super::calls::{CallFault, are_constant, call};
use super::envs::{EnvId, Envs};
use super::fault::GlFault;
use super::frame::{Focus, Frame, Path, Work};
use super::store_calls::{is_reached, known};
use super::visits::nil;
use bfr_store::{Bits, Edge};
use gl_logic::{FnId, World};
use lisp_eval::{EvalFault, Machine};
use std::alloc::Global;
use sym_objects::{Sob, Sobs, Stack};
use sym_prims::apply;

/// Whether a work may be done under a path that was not asked: all but a call of a recursive definition, so that a recursion ends,
/// and one for which no definition may be opened.
fn is_unasked(world: &World, work: Work<'_>, clock: u32) -> bool
    requires { (n : ℕ) × IsWorkOf world.now.definitions n work }
    ensures { IsTrue result → (path : Path) → IsAsked work.entry clock path }
{
    match work {
        Work::Prim(_) => true,
        Work::Let(_, _) => true,
        Work::Call(f) => clock > 0 && world.def(f).measure.is_none(),
    }
}

/// Gives NIL where the path was to be asked and no assignment reaches it; none where the work is to be done.
pub(crate) fn dropped<'a, B: Bits>(
    alloc: Global,
    objs: &mut Sobs<B>,
    world: &World,
    work: Work<'a>,
    clock: u32,
    path: &mut Path,
) -> Result<Option<Focus<'a>>, GlFault>
    requires whole { IsWhole B.Meaning objs.old }
    requires path { B.live objs.old.store path.old.edge }
    requires witnessed { IsWitnessed (B.truth_of objs.old.store) (B.width_of objs.old.store) path.old }
    requires work { (n : ℕ) × IsWorkOf world.now.definitions n work }
    ensures leaves { Leaves B.Meaning objs.old objs.new }
    ensures again { IfOk result (λ _. IsAgain B.Meaning objs.old objs.new path.old path.new) }
    ensures asked { IfOk result (λ o. MatchOption o (IsAsked work.entry clock path.new) (IsGiven objs.new)) }
    ensures never { IfOk result (λ o. IfSome o (λ _. (a : ℕ → Bool) → B.truth_of objs.old.store path.old.edge a ≡ false)) }
    ensures cause { IfErr result (HasPlainCause B.Meaning objs.new) }
{
    if is_unasked(world, work, clock) {
        return Ok(None);
    }
    if is_reached(alloc, objs, path)? {
        Ok(None)
    } else {
        Ok(Some(Focus::Give(nil(objs)?)))
    }
}

/// Does the work of a primitive, a call or a let.
pub(crate) fn run<'a, B: Bits>(
    alloc: Global,
    objs: &mut Sobs<B>,
    machine: &mut Machine,
    envs: &mut Envs,
    world: &'a World,
    start: Edge,
    path: &Path,
    work: Work<'a>,
    args: Vec<Sob>,
    env: EnvId,
    clock: u32,
    frames: &Stack<Frame<'a>>,
) -> Result<Focus<'a>, GlFault>
    requires ready { Ready B.Meaning objs.old envs.old start path.now frames.now (Focus.Run work args env clock) }
    requires terms { AreTerms world.now.definitions frames.now (Focus.Run work args env clock) }
    requires fits { Fits world.now machine.old }
    requires asked { IsAsked work clock path.now }
    ensures leaves { Leaves B.Meaning objs.old objs.new }
    ensures turn { IfOk result (λ f. Turns B.Meaning world.now.definitions start objs.old envs.old frames.now (Focus.Run work.entry args env clock) objs.new envs.new path.now frames.now f) }
    ensures terms { IfOk result (λ f. AreTerms world.now.definitions frames.now f) }
    ensures falls { IfOk result (Falls world.now.definitions frames.now (Focus.Run work.entry args env clock) frames.now) }
    ensures cause { IfErr result (HasTurnCause B.Meaning objs.old objs.new world.now machine.old path.now (Focus.Run work.entry args env clock)) }
    ensures rests { Rests machine.old machine.new }
{
    match work {
        Work::Prim(prim) => match apply(alloc, objs, prim, args.as_slice(), path.edge) {
            Ok(x) => Ok(Focus::Give(x)),
            Err(fault) => Err(GlFault::of(fault)),
        },
        Work::Let(names, body) => {
            let inner = envs.bind_all(names, args.as_slice(), env)?;
            Ok(Focus::Visit(body, inner, clock))
        }
        Work::Call(f) => {
            let xs = args.as_slice();
            if path.found.is_some() && are_constant(objs, xs) {
                match evaluate(alloc, objs, machine, world, path, f, xs) {
                    Ok(x) => return Ok(Focus::Give(x)),
                    Err(fault) => return Err(fault),
                }
            }
            if clock == 0 {
                return Err(GlFault::Clock(known(alloc, objs, path)?));
            }
            let definition = world.def(f);
            let outer = envs.empty();
            let inner = envs.bind_all(&definition.formals, xs, outer)?;
            Ok(Focus::Visit(&definition.body, inner, clock - 1))
        }
    }
}

/// The constant node of the value of a call on constant nodes, by the machine.
fn evaluate<B: Bits>(
    alloc: Global,
    objs: &mut Sobs<B>,
    machine: &mut Machine,
    world: &World,
    path: &Path,
    f: FnId,
    args: &[Sob],
) -> Result<Sob, GlFault>
    requires whole { IsWhole B.Meaning objs.old }
    requires edge { B.live objs.old.store path.now.edge }
    requires witnessed { IsWitnessed (B.truth_of objs.old.store) (B.width_of objs.old.store) path.now }
    requires known { IsSome path.now.found }
    requires args { All (IsLive objs.old) args.now }
    requires constant { All (IsConstant B.Meaning objs.old) args.now }
    requires fits { Fits world.now machine.old }
    requires arity { arity_in world.now.definitions f.number ≡ Some (length args.now) }
    ensures leaves { Leaves B.Meaning objs.old objs.new }
    ensures live { IfOk result (λ r. IsLive objs.new r) }
    ensures value { IfOk result (λ r. (a : ℕ → Bool) → HasValue world.now.definitions [] (constant_call f.number (values_under B.Meaning objs.old args.now a)) (stands_for B.Meaning objs.new r a)) }
    ensures cause { IfErr result (HasMachineCause B.Meaning objs.old objs.new world.now machine.old path.now f.number args.now) }
    ensures rests { Rests machine.old machine.new }
{
    match call(alloc, objs, machine, world, f, args) {
        Ok(x) => Ok(x),
        Err(CallFault::Full) => Err(GlFault::Full),
        Err(CallFault::Eval(fault)) => {
            let found = known(alloc, objs, path)?;
            match fault {
                EvalFault::Width => Err(GlFault::Wide(found)),
                EvalFault::Steps => Err(GlFault::Steps(found)),
                EvalFault::Cells => Err(GlFault::Cells(found)),
                EvalFault::Memory => Err(GlFault::Memory),
            }
        }
    }
}
