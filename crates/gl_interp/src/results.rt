//! The turns that hand an object on.

ghost use Rattle.std.specs.Prelude.{◌≡◌, ◌∷◌, ◌⊎◌, ℕ, Bool, true, not, None, List, length, IfOk, IfErr};
ghost use Rattle.gl_logic.specs.Definition.{Definition};
ghost use Rattle.sym_objects.specs.Seen.{IsWhole};
ghost use Rattle.sym_prims.specs.Applying.{Leaves};
ghost use Rattle.gl_interp.specs.Causes.{Rests};
ghost use Rattle.gl_interp.specs.Branches.{IsPartEdge, IsSplit};
ghost use Rattle.gl_interp.specs.Running.{AreTerms, IsWitnessed, Ready, Turn};
ghost use Rattle.gl_interp.specs.TurnFaults.{HasPlainCause};
ghost use Rattle.gl_interp.specs.TurnsLeft.{Falls};

use super::envs::{EnvId, Envs};
use super::fault::GlFault;
use super::flats::merged;
use super::frame::{Focus, Frame, Path, Work};
use super::store_calls::{copy_of, part, value};
use bfr_store::{Bits, Edge};
use gl_logic::{NoMemory, Term};
use lisp_eval::Machine;
use std::alloc::Global;
use sym_objects::{Sob, Sobs, Stack};
use sym_prims::store_calls::{complement, is_always};

/// Goes to the next argument, or to the work where all are there.
pub(crate) fn next<'a, B: Bits>(
    objs: &Sobs<B>,
    envs: &Envs,
    start: Edge,
    path: &Path,
    work: Work<'a>,
    done: Vec<Sob>,
    terms: &'a [Term],
    env: EnvId,
    clock: u32,
    frames: &mut Stack<Frame<'a>>,
) -> Result<Focus<'a>, NoMemory>
    requires ready { Ready B.Meaning objs.now envs.now start path.now frames.old (Focus.Next work done terms env clock) }
    ensures turn { IfOk result (λ f. (ds : List Definition) → Turn B.Meaning ds start objs.now envs.now frames.old (Focus.Next work.entry done terms.entry env clock) objs.now envs.now path.now frames.new f) }
    ensures terms { IfOk result (λ f. (ds : List Definition) → AreTerms ds frames.old (Focus.Next work.entry done terms.entry env clock) → AreTerms ds frames.new f) }
    ensures falls { IfOk result (λ f. (ds : List Definition) → Falls ds frames.old (Focus.Next work.entry done terms.entry env clock) frames.new f) }
{
    if done.len() < terms.len() {
        let term = &terms[done.len()];
        frames.push(Frame::Arguments(work, done, terms, env, clock))?;
        Ok(Focus::Visit(term, env, clock))
    } else {
        Ok(Focus::Run(work, done, env, clock))
    }
}

/// Hands an object to the frame on top.
pub(crate) fn give<'a, B: Bits>(
    alloc: Global,
    objs: &mut Sobs<B>,
    machine: &mut Machine,
    envs: &Envs,
    start: Edge,
    path: &mut Path,
    object: Sob,
    frame: Frame<'a>,
    frames: &mut Stack<Frame<'a>>,
) -> Result<Focus<'a>, GlFault>
    requires ready { Ready B.Meaning objs.old envs.now start path.old (frame ∷ frames.old) (Focus.Give object) }
    ensures leaves { Leaves B.Meaning objs.old objs.new }
    ensures turn { IfOk result (λ f. (ds : List Definition) → Turn B.Meaning ds start objs.old envs.now (frame.entry ∷ frames.old) (Focus.Give object) objs.new envs.now path.new frames.new f) }
    ensures terms { IfOk result (λ f. (ds : List Definition) → AreTerms ds (frame.entry ∷ frames.old) (Focus.Give object) → AreTerms ds frames.new f) }
    ensures falls { IfOk result (λ f. (ds : List Definition) → Falls ds (frame.entry ∷ frames.old) (Focus.Give object) frames.new f) }
    ensures cause { IfErr result (HasPlainCause B.Meaning objs.new) }
    ensures rests { Rests machine.old machine.new }
{
    match frame {
        Frame::Test(a, b, env, clock) => branch(
            alloc, objs, machine, envs, start, path, object, a, b, env, clock, frames,
        ),
        Frame::Other(test, b, env, clock, saved, rest) => {
            let found = path.found.take();
            frames.push(Frame::Join(test, object, Path { edge: saved, found }))?;
            *path = rest;
            Ok(Focus::Visit(b, env, clock))
        }
        Frame::Join(test, first, saved) => {
            go_back(path, saved);
            Ok(Focus::Give(objs.merge(alloc, test, first, object)?))
        }
        Frame::Arguments(work, mut done, terms, env, clock) => {
            done.push(object)?;
            Ok(Focus::Next(work, done, terms, env, clock))
        }
    }
}

/// Goes back to the path to two branches, from that to the other one. An assignment that reaches this one reaches the two.
fn go_back(path: &mut Path, saved: Path)
    ensures edge { path.new.edge ≡ saved.edge }
    ensures found { (path.new.found ≡ path.old.found) ⊎ (path.new.found ≡ saved.found) }
{
    if path.found.is_some() {
        path.edge = saved.edge;
    } else {
        *path = saved;
    }
}

/// Goes into the branches of a test. Branches without calls are done at once: they need no path, and no decision is taken.
fn branch<'a, B: Bits>(
    alloc: Global,
    objs: &mut Sobs<B>,
    machine: &mut Machine,
    envs: &Envs,
    start: Edge,
    path: &mut Path,
    object: Sob,
    a: &'a Term,
    b: &'a Term,
    env: EnvId,
    clock: u32,
    frames: &mut Stack<Frame<'a>>,
) -> Result<Focus<'a>, GlFault>
    requires ready { Ready B.Meaning objs.old envs.now start path.old (Frame.Test a b env clock ∷ frames.old) (Focus.Give object) }
    ensures leaves { Leaves B.Meaning objs.old objs.new }
    ensures turn { IfOk result (λ f. (ds : List Definition) → Turn B.Meaning ds start objs.old envs.now (Frame.Test a.entry b.entry env clock ∷ frames.old) (Focus.Give object) objs.new envs.now path.new frames.new f) }
    ensures terms { IfOk result (λ f. (ds : List Definition) → AreTerms ds (Frame.Test a.entry b.entry env clock ∷ frames.old) (Focus.Give object) → AreTerms ds frames.new f) }
    ensures falls { IfOk result (λ f. (ds : List Definition) → Falls ds (Frame.Test a.entry b.entry env clock ∷ frames.old) (Focus.Give object) frames.new f) }
    ensures cause { IfErr result (HasPlainCause B.Meaning objs.new) }
    ensures rests { Rests machine.old machine.new }
{
    let test = objs.truth(alloc, object)?;
    if let Some(x) = merged(alloc, objs, machine, envs, test, a, b, env)? {
        return Ok(Focus::Give(x));
    }
    match split(alloc, objs, path, test)? {
        Branches::First => Ok(Focus::Visit(a, env, clock)),
        Branches::Second => Ok(Focus::Visit(b, env, clock)),
        Branches::Both(first, second) => {
            frames.push(Frame::Other(test, b, env, clock, path.edge, second))?;
            *path = first;
            Ok(Focus::Visit(a, env, clock))
        }
    }
}

/// Which branches are to be gone into: one that is taken on all of a path, or both, each with its path.
#[derive(Drop)]
pub enum Branches {
    First,
    Second,
    Both(Path, Path),
}

/// The branches of a test. One is left out where the edge of its path is constant. Whether another is reached is asked later,
/// where that matters.
fn split<B: Bits>(
    alloc: Global,
    objs: &mut Sobs<B>,
    path: &Path,
    test: Edge,
) -> Result<Branches, GlFault>
    requires whole { IsWhole B.Meaning objs.old }
    requires path { B.live objs.old.store path.now.edge }
    requires test { B.live objs.old.store test }
    requires witnessed { IsWitnessed (B.truth_of objs.old.store) (B.width_of objs.old.store) path.now }
    ensures leaves { Leaves B.Meaning objs.old objs.new }
    ensures split { IfOk result (IsSplit B.Meaning objs.old objs.new path.now.edge test) }
    ensures cause { IfErr result (HasPlainCause B.Meaning objs.new) }
{
    if is_always(objs, test, true) {
        return Ok(Branches::First);
    }
    if is_always(objs, test, false) {
        return Ok(Branches::Second);
    }
    let opposite = complement(objs, test);
    let Some(second) = part(objs, path.edge, opposite)? else {
        return Ok(Branches::First);
    };
    let Some(first) = part(objs, path.edge, test)? else {
        return Ok(Branches::Second);
    };
    sides(alloc, objs, path, test, first, second)
}

/// Both branches, by the edges of their paths. The path's own assignment goes with the one that it takes.
fn sides<B: Bits>(
    alloc: Global,
    objs: &mut Sobs<B>,
    path: &Path,
    test: Edge,
    first: Edge,
    second: Edge,
) -> Result<Branches, GlFault>
    requires whole { IsWhole B.Meaning objs.old }
    requires test { B.live objs.old.store test }
    requires witnessed { IsWitnessed (B.truth_of objs.old.store) (B.width_of objs.old.store) path.now }
    requires first { IsPartEdge B.Meaning objs.old objs.old path.now.edge (B.truth_of objs.old.store test) first }
    requires second { IsPartEdge B.Meaning objs.old objs.old path.now.edge (λ a. not (B.truth_of objs.old.store test a)) second }
    ensures leaves { Leaves B.Meaning objs.old objs.new }
    ensures split { IfOk result (IsSplit B.Meaning objs.old objs.new path.now.edge test) }
    ensures cause { IfErr result (HasPlainCause B.Meaning objs.new) }
{
    let Some(found) = &path.found else {
        return Ok(Branches::Both(unasked(first), unasked(second)));
    };
    let here = value(objs, test, found);
    let copy = Some(copy_of(alloc, objs, found)?);
    if here {
        Ok(Branches::Both(
            Path {
                edge: first,
                found: copy,
            },
            unasked(second),
        ))
    } else {
        Ok(Branches::Both(
            unasked(first),
            Path {
                edge: second,
                found: copy,
            },
        ))
    }
}

/// The path of an edge of which no assignment is known.
fn unasked(edge: Edge) -> Path
    ensures edge { result.edge ≡ edge }
    ensures found { result.found ≡ None }
{
    Path { edge, found: None }
}
