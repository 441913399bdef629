//! The turns that go into a term.

ghost use Rattle.std.specs.Prelude.{◌≡◌, ℕ, Bool, false, Ok, None, List, length, IfOk, IfErr, IfSome};
ghost use Rattle.gl_logic.specs.Definition.{Definition};
ghost use Rattle.gl_logic.specs.Object.{nil};
ghost use Rattle.gl_logic.specs.WorldSeen.{WorldSeen};
ghost use Rattle.sym_objects.specs.Seen.{IsLive, IsWhole, stands_for};
ghost use Rattle.sym_prims.specs.Applying.{Leaves};
ghost use Rattle.gl_interp.specs.Causes.{Rests};
ghost use Rattle.gl_interp.specs.Running.{AreTerms, IsWitnessed, Ready, Turn};
ghost use Rattle.gl_interp.specs.TurnFaults.{HasConstantCause, HasPlainCause, HasTurnCause};
ghost use Rattle.gl_interp.specs.TurnsLeft.{Falls};

use super::constants::{PlaceFault, constant};
use super::envs::{EnvId, Envs};
use super::fault::GlFault;
use super::frame::{Focus, Frame, Path, Work};
use super::store_calls::witness;
use bfr_store::{Bits, Edge};
use gl_logic::{Term, Tree};
use lisp_eval::Machine;
use std::alloc::Global;
use sym_objects::{Sob, Sobs, Stack};
use sym_prims::store_calls::constant_edge;

/// Goes into a term.
pub(crate) fn visit<'a, B: Bits>(
    alloc: Global,
    objs: &mut Sobs<B>,
    machine: &mut Machine,
    envs: &Envs,
    start: Edge,
    path: &Path,
    term: &'a Term,
    env: EnvId,
    clock: u32,
    frames: &mut Stack<Frame<'a>>,
) -> Result<Focus<'a>, GlFault>
    requires ready { Ready B.Meaning objs.old envs.now start path.now frames.old (Focus.Visit term env clock) }
    ensures leaves { Leaves B.Meaning objs.old objs.new }
    ensures turn { IfOk result (λ f. (ds : List Definition) → Turn B.Meaning ds start objs.old envs.now frames.old (Focus.Visit term.entry env clock) objs.new envs.now path.now frames.new f) }
    ensures terms { IfOk result (λ f. (ds : List Definition) → AreTerms ds frames.old (Focus.Visit term.entry env clock) → AreTerms ds frames.new f) }
    ensures falls { IfOk result (λ f. (ds : List Definition) → Falls ds frames.old (Focus.Visit term.entry env clock) frames.new f) }
    ensures cause { IfErr result (λ c. (w : WorldSeen) → HasTurnCause B.Meaning objs.old objs.new w machine.old path.now (Focus.Visit term.entry env clock) c) }
    ensures rests { Rests machine.old machine.new }
{
    match term {
        Term::Var(name) => match envs.look(env, *name) {
            Some(x) => Ok(Focus::Give(x)),
            None => Ok(Focus::Give(nil(objs)?)),
        },
        Term::Const(tree) => match constant_of(alloc, objs, machine, path, tree) {
            Ok(Some(x)) => Ok(Focus::Give(x)),
            Ok(None) => Ok(Focus::Give(nil(objs)?)),
            Err(fault) => Err(fault),
        },
        Term::If(test, a, b) => {
            frames.push(Frame::Test(a, b, env, clock))?;
            Ok(Focus::Visit(test, env, clock))
        }
        Term::Prim(prim, terms) => Ok(Focus::Next(
            Work::Prim(*prim),
            Vec::new(alloc),
            terms.as_slice(),
            env,
            clock,
        )),
        Term::Call(f, terms) => Ok(Focus::Next(
            Work::Call(*f),
            Vec::new(alloc),
            terms.as_slice(),
            env,
            clock,
        )),
        Term::Let(names, terms, body) => Ok(Focus::Next(
            Work::Let(names, body),
            Vec::new(alloc),
            terms.as_slice(),
            env,
            clock,
        )),
    }
}

/// NIL.
pub(crate) fn nil<B: Bits>(objs: &mut Sobs<B>) -> Result<Sob, GlFault>
    requires { IsWhole B.Meaning objs.old }
    ensures leaves { Leaves B.Meaning objs.old objs.new }
    ensures live { IfOk result (λ r. IsLive objs.new r) }
    ensures means { IfOk result (λ r. (a : ℕ → Bool) → stands_for B.Meaning objs.new r a ≡ nil) }
    ensures cause { IfErr result (HasPlainCause B.Meaning objs.new) }
{
    let never = constant_edge(objs, false);
    Ok(objs.boolean(never)?)
}

/// The constant node of a tree's object. None where there is no room for it and no assignment reaches the path.
fn constant_of<B: Bits>(
    alloc: Global,
    objs: &mut Sobs<B>,
    machine: &mut Machine,
    path: &Path,
    tree: &Tree,
) -> Result<Option<Sob>, GlFault>
    requires whole { IsWhole B.Meaning objs.old }
    requires edge { B.live objs.old.store path.now.edge }
    requires witnessed { IsWitnessed (B.truth_of objs.old.store) (B.width_of objs.old.store) path.now }
    ensures leaves { Leaves B.Meaning objs.old objs.new }
    ensures live { IfOk result (λ o. IfSome o (λ r. IsLive objs.new r)) }
    ensures means { IfOk result (λ o. IfSome o (λ r. (a : ℕ → Bool) → stands_for B.Meaning objs.new r a ≡ tree.now)) }
    ensures never { result ≡ Ok None → (a : ℕ → Bool) → B.truth_of objs.old.store path.now.edge a ≡ false }
    ensures cause { IfErr result (HasConstantCause B.Meaning objs.new machine.old path.now tree.now) }
    ensures rests { Rests machine.old machine.new }
{
    match constant(alloc, objs, machine, tree) {
        Ok(x) => Ok(Some(x)),
        Err(PlaceFault::Cells) => match witness(alloc, objs, path)? {
            Some(found) => Err(GlFault::Cells(found)),
            None => Ok(None),
        },
        Err(PlaceFault::Full) => Err(GlFault::Full),
        Err(PlaceFault::Memory) => Err(GlFault::Memory),
    }
}
