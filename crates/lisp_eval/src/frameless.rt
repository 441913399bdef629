//! Evaluations without frames: as far as they go with no need of one.

ghost use Rattle.std.specs.Prelude.{◌≡◌, ◌≤◌, IfOk, IsTrue, [], ◌∷◌, length};
ghost use Rattle.fast_alists.specs.Tables.{Agree};
ghost use Rattle.gl_logic.specs.Every.{Every};
ghost use Rattle.gl_logic.specs.TermOf.{term_of, terms_of};
ghost use Rattle.hons_arena.specs.Held.{IsWhole};
ghost use Rattle.hons_arena.specs.Ids.{IsLive};
ghost use Rattle.lisp_eval.specs.Frameless.{AdvanceTellsIn, StepTellsIn, MayOpen, BindsFoundIn, BindsUpTo, EntersLocals, AreLiveLocals};
ghost use Rattle.lisp_eval.specs.Attempts.{TellsIn};
ghost use Rattle.lisp_eval.specs.Directs.{in_scope, IsLiveScope};
ghost use Rattle.lisp_eval.specs.Outside.{IsLiveValue};
ghost use Rattle.lisp_eval.specs.States.{env_of};

use crate::attempt::{Found, Scope, Setting, Stop};
use crate::calls::{is_answered, is_memoized};
use crate::direct::{LEVELS, at_once};
use crate::frame::Binding;
use crate::integers::{bind_integers, compared_on, zp_on};
use crate::value::Local;
use fast_alists::FastAlists;
use gl_logic::{FnId, Names, NoMemory, Term, World};
use hons_arena::{HonsArena, Id};
use std::mem;
use std::rc::Rc;

/// How many formals a definition may have whose body is gone into.
const FORMALS: u64 = 16;

/// Where an evaluation is, with the visits that are left.
#[derive(Drop)]
pub enum Reached<'a> {
    /// At its value.
    Value(Id, u64),
    /// At a term in an environment.
    Term(&'a Term, Rc<Vec<Binding>>, u64),
}

/// One step of an evaluation, with the visits that are left.
#[derive(Clone, Copy)]
pub enum Step<'a> {
    /// Its value is found.
    Value(Found),
    /// It goes on with a term on the same variables.
    Stays(&'a Term, u64),
    /// It goes on with a body on other variables.
    Opens(&'a Term, u64),
}

/// Goes as far as there is no need of a frame: past each `if` whose test is found at once, and into the body of each call
/// whose arguments are, unless its function is memoized or answered by tables. Beyond where there is nothing to go; Full
/// only where a value lacks a cell. Cells that were made stay, after a refusal too.
pub fn advance<'a>(
    setting: &Setting<'a>,
    arena: &mut HonsArena,
    alists: &mut FastAlists,
    term: &'a Term,
    env: &Rc<Vec<Binding>>,
    left: u64,
) -> Result<Reached<'a>, Stop>
    requires whole { IsWhole arena.old }
    requires env { Every (λ b. IsLive arena.old.objects b.value) env.now.value.items }
    requires agree { Agree arena.old.objects alists.old }
    ensures tells { AdvanceTellsIn setting.now env.now.value.items (term_of term.now) left arena.old arena.new result }
    ensures agree { Agree arena.new.objects alists.new }
{
    let mut here = Vec::new(setting.alloc);
    let scope = Scope::Outer(env.as_ref().as_slice());
    match take_step(setting, arena, alists, term, &scope, &mut here, left)? {
        Step::Value(found) => Ok(Reached::Value(found.value.enter(arena)?, found.left)),
        Step::Stays(inner, rest) => Ok(Reached::Term(inner, env.clone()?, rest)),
        Step::Opens(body, rest) => {
            let mut inner = body;
            let mut rest = rest;
            let mut next = Vec::new(setting.alloc);
            loop {
                let scope = Scope::Inner(here.as_slice());
                let step = match take_step(setting, arena, alists, inner, &scope, &mut next, rest) {
                    Ok(step) => step,
                    Err(Stop::Beyond) => {
                        let mut bindings = Vec::new(setting.alloc);
                        enter_all(arena, here.as_slice(), &mut bindings)?;
                        return Ok(Reached::Term(inner, Rc::new(setting.alloc, bindings)?, rest));
                    }
                    Err(stop) => return Err(stop),
                };
                match step {
                    Step::Value(found) => {
                        return Ok(Reached::Value(found.value.enter(arena)?, found.left));
                    }
                    Step::Stays(term, left) => {
                        inner = term;
                        rest = left;
                    }
                    Step::Opens(body, left) => {
                        mem::swap(&mut here, &mut next);
                        inner = body;
                        rest = left;
                    }
                }
            }
        }
    }
}

/// One step of an evaluation on the variables of a scope. Where it goes into a body, `next` holds that body's variables.
#[inline(always)]
fn take_step<'a>(
    setting: &Setting<'a>,
    arena: &mut HonsArena,
    alists: &mut FastAlists,
    term: &'a Term,
    scope: &Scope,
    next: &mut Vec<Local>,
    left: u64,
) -> Result<Step<'a>, Stop>
    requires whole { IsWhole arena.old }
    requires scope { IsLiveScope arena.old.objects scope.now }
    requires agree { Agree arena.old.objects alists.old }
    ensures tells { StepTellsIn setting.now scope.now (term_of term.now) left arena.old arena.new next.new.items result }
    ensures agree { Agree arena.new.objects alists.new }
{
    if left == 0 {
        return Err(Stop::Beyond);
    }
    match term {
        Term::If(test, then, otherwise) => {
            let found = test_value(setting, arena, alists, test, scope, left - 1)?;
            if found.value.is_nil(arena) {
                Ok(Step::Stays(otherwise, found.left))
            } else {
                Ok(Step::Stays(then, found.left))
            }
        }
        Term::Call(f, terms) => {
            if !goes_into(setting.world, setting.functions, *f, terms.as_slice()) {
                return Err(Stop::Beyond);
            }
            let def = setting.world.def(*f);
            next.clear();
            let rest = bind_found(
                setting,
                arena,
                alists,
                &def.formals,
                terms.as_slice(),
                scope,
                next,
                left - 1,
            )?;
            Ok(Step::Opens(&def.body, rest))
        }
        _ => Ok(Step::Value(at_once(setting, arena, alists, term, scope, LEVELS, left)?)),
    }
}

/// Whether the body of a call is gone into where its arguments are found at once: of a definition with few formals and
/// with as many arguments, which is neither memoized nor answered by tables.
fn goes_into(world: &World, functions: &[u64], f: FnId, terms: &[Term]) -> bool
    ensures { IsTrue result → MayOpen world.now.definitions functions.now f.number (length terms.now) }
{
    if f.number >= world.count() || is_memoized(functions, f) || is_answered(world, f) {
        return false;
    }
    let count = world.def(f).formals.len();
    count <= FORMALS && count == terms.len() as u64
}

/// What a test gives at once: one of terms over integers, by `zp`, `<` or `equal`, is found with no more than its variables.
#[inline(always)]
fn test_value(
    setting: &Setting,
    arena: &mut HonsArena,
    alists: &mut FastAlists,
    term: &Term,
    scope: &Scope,
    left: u64,
) -> Result<Found, Stop>
    requires whole { IsWhole arena.old }
    requires scope { IsLiveScope arena.old.objects scope.now }
    requires agree { Agree arena.old.objects alists.old }
    ensures { TellsIn setting.now scope.now (term_of term.now) left arena.old arena.new alists.new result }
{
    if let Scope::Inner(locals) = scope {
        if let Some(found) = zp_on(setting.world, setting.functions, term, locals, left) {
            return Ok(found);
        }
        if let Some(found) = compared_on(term, locals, left) {
            return Ok(found);
        }
    }
    at_once(setting, arena, alists, term, scope, LEVELS, left)
}

/// Adds the names, each with the value of its term; the visits that are left.
fn bind_found(
    setting: &Setting,
    arena: &mut HonsArena,
    alists: &mut FastAlists,
    names: &Names,
    terms: &[Term],
    scope: &Scope,
    next: &mut Vec<Local>,
    left: u64,
) -> Result<u64, Stop>
    requires whole { IsWhole arena.old }
    requires scope { IsLiveScope arena.old.objects scope.now }
    requires agree { Agree arena.old.objects alists.old }
    requires count { length terms.now ≡ length names.now }
    ensures tells { BindsFoundIn setting.now scope.now names.now (terms_of terms.now) left arena.old arena.new next.old.items next.new.items result }
    ensures agree { Agree arena.new.objects alists.new }
{
    let mut rest = left;
    let mut from = 0;
    loop {
        let to = bind_first_integers(names, from, terms, scope, next, &mut rest)?;
        if to >= terms.len() {
            return Ok(rest);
        }
        let found = at_once(setting, arena, alists, &terms[to], scope, LEVELS, rest)?;
        next.push(Local {
            name: *names.at(to as u64),
            value: found.value,
        })?;
        rest = found.left;
        from = to + 1;
    }
}

/// Adds the names from a place on with the integers that their terms give, up to the first term that gives none: its place.
#[inline(always)]
fn bind_first_integers(
    names: &Names,
    from: usize,
    terms: &[Term],
    scope: &Scope,
    next: &mut Vec<Local>,
    left: &mut u64,
) -> Result<usize, NoMemory>
    requires count { length terms.now ≡ length names.now }
    requires within { from ≤ length terms.now }
    ensures binds { IfOk result (BindsUpTo (in_scope scope.now) names.now terms.now from left.old left.new next.old.items next.new.items) }
    ensures further { IfOk result (λ to. from ≤ to) }
{
    match scope {
        Scope::Inner(locals) => bind_integers(names, from, terms, locals, next, left),
        Scope::Outer(_) => Ok(from),
    }
}

/// Adds each local with the id of its value.
#[cycle(enter_all)]
fn enter_all(arena: &mut HonsArena, locals: &[Local], env: &mut Vec<Binding>) -> Result<(), Stop>
    requires whole { IsWhole arena.old }
    requires live { AreLiveLocals arena.old.objects locals.now }
    ensures { EntersLocals locals.now arena.old arena.new env.old.items env.new.items result }
{
    match locals {
        [] => Ok(()),
        [local, later @ ..] => {
            enter(arena, local, env)?;
            enter_all(arena, later, env)
        }
    }
}

/// Adds a local with the id of its value.
fn enter(arena: &mut HonsArena, local: &Local, env: &mut Vec<Binding>) -> Result<(), Stop>
    requires whole { IsWhole arena.old }
    requires live { IsLiveValue arena.old.objects local.now.value }
    ensures { EntersLocals (local.now ∷ []) arena.old arena.new env.old.items env.new.items result }
{
    let value = local.value.enter(arena)?;
    env.push(Binding {
        name: local.name,
        value,
    })?;
    Ok(())
}
