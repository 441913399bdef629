//! Branches without calls: terms of variables, constants and `if`s. A fault in one of them needs no assignment of the path.

ghost use Rattle.std.specs.Prelude.{◌≡◌, ℕ, Bool, [], cond, get_or, IfOk, IfErr, IfSome};
ghost use Rattle.gl_logic.specs.Exp as exp;
ghost use Rattle.gl_logic.specs.TermOf.{term_of};
ghost use Rattle.sym_objects.specs.Seen.{IsLive, IsWhole, stands_for};
ghost use Rattle.sym_prims.specs.Applying.{Leaves};
ghost use Rattle.gl_interp.specs.Causes.{Rests};
ghost use Rattle.gl_interp.specs.FlatValues.{MayLook, StandsForBranches, StandsForTerm};
ghost use Rattle.gl_interp.specs.TurnFaults.{HasPlainCause};

use super::constants::{PlaceFault, constant};
use super::envs::{EnvId, Envs};
use super::fault::GlFault;
use super::visits::nil;
use bfr_store::{Bits, Edge};
use gl_logic::{Term, TextId, Tree};
use lisp_eval::Machine;
use std::alloc::Global;
use sym_objects::{Sob, Sobs};
use sym_prims::store_calls::is_always;

/// How many `if`s may stand inside one another in a branch that is done at once.
const FLAT_DEPTH: u32 = 8;

/// Whether a term is made of variables, constants and `if`s, with at most so many `if`s inside one another.
fn is_flat(term: &Term, depth: u32) -> bool {
    match term {
        Term::Var(_) => true,
        Term::Const(_) => true,
        Term::If(test, a, b) => {
            depth > 0 && is_flat(test, depth - 1) && is_flat(a, depth - 1) && is_flat(b, depth - 1)
        }
        _ => false,
    }
}

/// The value of a term under every assignment. None of a term that is not made of variables, constants and `if`s, and where
/// the machine's arena has no room for a constant.
fn flat<B: Bits>(
    alloc: Global,
    objs: &mut Sobs<B>,
    machine: &mut Machine,
    envs: &Envs,
    term: &Term,
    env: EnvId,
) -> Result<Option<Sob>, GlFault>
    requires whole { IsWhole B.Meaning objs.old }
    requires look { MayLook objs.old envs.now env.number }
    ensures leaves { Leaves B.Meaning objs.old objs.new }
    ensures look { IfOk result (λ _. MayLook objs.new envs.now env.number) }
    ensures live { IfOk result (λ o. IfSome o (λ r. IsLive objs.new r)) }
    ensures value { IfOk result (λ o. IfSome o (StandsForTerm B.Meaning objs.old objs.new (get_or envs.now env.number []) (term_of term.now))) }
    ensures cause { IfErr result (HasPlainCause B.Meaning objs.new) }
    ensures rests { Rests machine.old machine.new }
{
    match term {
        Term::Var(name) => Ok(Some(variable(objs, envs, *name, env)?)),
        Term::Const(tree) => {
            let made = placed(alloc, objs, machine, tree)?;
            Ok(made)
        }
        Term::If(test, a, b) => {
            let Some(t) = flat(alloc, objs, machine, envs, test, env)? else {
                return Ok(None);
            };
            let Some(x) = flat(alloc, objs, machine, envs, a, env)? else {
                return Ok(None);
            };
            let Some(y) = flat(alloc, objs, machine, envs, b, env)? else {
                return Ok(None);
            };
            let edge = objs.truth(alloc, t)?;
            Ok(Some(chosen(alloc, objs, edge, x, y)?))
        }
        _ => Ok(None),
    }
}

/// The values of two branches, merged by their test. None where its edge is constant, and where a branch is not made of
/// variables, constants and `if`s, or the machine's arena has no room for a constant.
pub(crate) fn merged<B: Bits>(
    alloc: Global,
    objs: &mut Sobs<B>,
    machine: &mut Machine,
    envs: &Envs,
    test: Edge,
    a: &Term,
    b: &Term,
    env: EnvId,
) -> Result<Option<Sob>, GlFault>
    requires whole { IsWhole B.Meaning objs.old }
    requires test { B.live objs.old.store test }
    requires look { MayLook objs.old envs.now env.number }
    ensures leaves { Leaves B.Meaning objs.old objs.new }
    ensures live { IfOk result (λ o. IfSome o (λ r. IsLive objs.new r)) }
    ensures value { IfOk result (λ o. IfSome o (StandsForBranches B.Meaning objs.old objs.new (get_or envs.now env.number []) (B.truth_of objs.old.store test) (term_of a.now) (term_of b.now))) }
    ensures cause { IfErr result (HasPlainCause B.Meaning objs.new) }
    ensures rests { Rests machine.old machine.new }
{
    if is_always(objs, test, true) {
        return Ok(None);
    }
    if is_always(objs, test, false) {
        return Ok(None);
    }
    if !is_flat(a, FLAT_DEPTH) || !is_flat(b, FLAT_DEPTH) {
        return Ok(None);
    }
    both(alloc, objs, machine, envs, test, a, b, env)
}

/// The same, where the edge may be constant.
fn both<B: Bits>(
    alloc: Global,
    objs: &mut Sobs<B>,
    machine: &mut Machine,
    envs: &Envs,
    test: Edge,
    a: &Term,
    b: &Term,
    env: EnvId,
) -> Result<Option<Sob>, GlFault>
    requires whole { IsWhole B.Meaning objs.old }
    requires test { B.live objs.old.store test }
    requires look { MayLook objs.old envs.now env.number }
    ensures leaves { Leaves B.Meaning objs.old objs.new }
    ensures live { IfOk result (λ o. IfSome o (λ r. IsLive objs.new r)) }
    ensures value { IfOk result (λ o. IfSome o (StandsForBranches B.Meaning objs.old objs.new (get_or envs.now env.number []) (B.truth_of objs.old.store test) (term_of a.now) (term_of b.now))) }
    ensures cause { IfErr result (HasPlainCause B.Meaning objs.new) }
    ensures rests { Rests machine.old machine.new }
{
    let Some(x) = flat(alloc, objs, machine, envs, a, env)? else {
        return Ok(None);
    };
    let Some(y) = flat(alloc, objs, machine, envs, b, env)? else {
        return Ok(None);
    };
    Ok(Some(objs.merge(alloc, test, x, y)?))
}

/// The one object where the edge is true, and the other elsewhere.
fn chosen<B: Bits>(
    alloc: Global,
    objs: &mut Sobs<B>,
    test: Edge,
    a: Sob,
    b: Sob,
) -> Result<Sob, GlFault>
    requires whole { IsWhole B.Meaning objs.old }
    requires test { B.live objs.old.store test }
    requires first { IsLive objs.old a }
    requires second { IsLive objs.old b }
    ensures leaves { Leaves B.Meaning objs.old objs.new }
    ensures live { IfOk result (λ r. IsLive objs.new r) }
    ensures means { IfOk result (λ r. (v : ℕ → Bool) → stands_for B.Meaning objs.new r v ≡ cond (B.truth_of objs.old.store test v) (stands_for B.Meaning objs.old a v) (stands_for B.Meaning objs.old b v)) }
    ensures cause { IfErr result (HasPlainCause B.Meaning objs.new) }
{
    if is_always(objs, test, true) {
        return Ok(a);
    }
    if is_always(objs, test, false) {
        return Ok(b);
    }
    Ok(objs.merge(alloc, test, a, b)?)
}

/// A variable's object.
fn variable<B: Bits>(
    objs: &mut Sobs<B>,
    envs: &Envs,
    name: TextId,
    env: EnvId,
) -> Result<Sob, GlFault>
    requires whole { IsWhole B.Meaning objs.old }
    requires look { MayLook objs.old envs.now env.number }
    ensures leaves { Leaves B.Meaning objs.old objs.new }
    ensures live { IfOk result (λ r. IsLive objs.new r) }
    ensures value { IfOk result (StandsForTerm B.Meaning objs.old objs.new (get_or envs.now env.number []) (exp.Var name.number)) }
    ensures cause { IfErr result (HasPlainCause B.Meaning objs.new) }
{
    match envs.look(env, name) {
        Some(x) => Ok(x),
        None => Ok(nil(objs)?),
    }
}

/// A constant's object, where the arena has room for it.
fn placed<B: Bits>(
    alloc: Global,
    objs: &mut Sobs<B>,
    machine: &mut Machine,
    tree: &Tree,
) -> Result<Option<Sob>, GlFault>
    requires whole { IsWhole B.Meaning objs.old }
    ensures leaves { Leaves B.Meaning objs.old objs.new }
    ensures live { IfOk result (λ o. IfSome o (λ r. IsLive objs.new r)) }
    ensures means { IfOk result (λ o. IfSome o (λ r. (a : ℕ → Bool) → stands_for B.Meaning objs.new r a ≡ tree.now)) }
    ensures cause { IfErr result (HasPlainCause B.Meaning objs.new) }
    ensures rests { Rests machine.old machine.new }
{
    match constant(alloc, objs, machine, tree) {
        Ok(x) => Ok(Some(x)),
        Err(PlaceFault::Cells) => Ok(None),
        Err(PlaceFault::Full) => Err(GlFault::Full),
        Err(PlaceFault::Memory) => Err(GlFault::Memory),
    }
}
