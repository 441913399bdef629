//! Terms that are evaluated at once, with no frame; cells and memory go to conses and to what tables answer.

ghost use Rattle.std.specs.Prelude.{◌<◌};
ghost use Rattle.fast_alists.specs.Tables.{Agree};
ghost use Rattle.gl_logic.specs.DefinitionOf.{definition_of};
ghost use Rattle.gl_logic.specs.TermOf.{term_of, terms_of};
ghost use Rattle.hons_arena.specs.Held.{IsWhole};
ghost use Rattle.lisp_eval.specs.Attempts.{TellsIn, TellsAllIn, BodyTells, TablesTell, ZeroTells, EntersThree, unary_term, binary_term};
ghost use Rattle.lisp_eval.specs.Directs.{IsLiveScope};
ghost use Rattle.lisp_eval.specs.Outside.{IsLiveValue};

use crate::applied::{apply, constant_found};
use crate::attempt::{Found, Given, Ids, NOTHING, Scope, Setting, Stop, local};
use crate::calls::is_answered;
use crate::opening::opens_at_once;
use crate::tables::answer;
use crate::value::Value;
use crate::zero::{is_zp, zero_test};
use fast_alists::{AlistFault, FastAlists};
use gl_logic::{Def, FnId, Prim, Term};
use hons_arena::{Full, HonsArena};

/// How deep a term that is evaluated at once may nest, with the bodies of the definitions that it opens.
pub const LEVELS: u64 = 12;

/// The value of a term on the variables of a scope, and the visits that are left of so many; for a term of few levels that
/// binds nothing, and opens no definitions but `zp` and those that bind nothing and call nothing. Full only where a cons,
/// or an integer of more than 64 bits, lacks a cell, Memory only where a table is refused it; where a table's answer lacks a
/// cell, it is Beyond. Cells that were made stay, after a refusal too: each is of a value that the evaluation of the term
/// speaks of.
///
/// Each kind of compound term has a function of its own, so that a visit has a small frame.
#[cycle(at_once)]
#[inline(always)]
pub fn at_once(
    setting: &Setting,
    arena: &mut HonsArena,
    alists: &mut FastAlists,
    term: &Term,
    scope: &Scope,
    levels: u64,
    left: u64,
) -> Result<Found, Stop>
    requires whole { IsWhole arena.old }
    requires scope { IsLiveScope arena.old.objects scope.now }
    requires agree { Agree arena.old.objects alists.old }
    ensures { TellsIn setting.now scope.now (term_of term.now) left arena.old arena.new alists.new result }
{
    if levels == 0 || left == 0 {
        return Err(Stop::Beyond);
    }
    match term {
        Term::Var(name) => Ok(Found {
            value: scope.value(*name),
            left: left - 1,
        }),
        Term::Const(tree) => constant_found(arena, tree, left),
        Term::If(_, _, _) => branch(setting, arena, alists, term, scope, levels, left),
        Term::Prim(_, _) => operation(setting, arena, alists, term, scope, levels, left),
        Term::Call(_, _) => opened(setting, arena, alists, term, scope, levels, left),
        Term::Let(_, _, _) => Err(Stop::Beyond),
    }
}

/// What an `if` gives at once; nothing for any other term.
#[cycle(at_once)]
#[inline(never)]
fn branch(
    setting: &Setting,
    arena: &mut HonsArena,
    alists: &mut FastAlists,
    term: &Term,
    scope: &Scope,
    levels: u64,
    left: u64,
) -> Result<Found, Stop>
    requires whole { IsWhole arena.old }
    requires scope { IsLiveScope arena.old.objects scope.now }
    requires agree { Agree arena.old.objects alists.old }
    requires levels { 0 < levels }
    requires left { 0 < left }
    ensures { TellsIn setting.now scope.now (term_of term.now) left arena.old arena.new alists.new result }
{
    match term {
        Term::If(test, then, otherwise) => {
            let found = at_once(setting, arena, alists, test, scope, levels - 1, left - 1)?;
            if found.value.is_nil(arena) {
                at_once(
                    setting,
                    arena,
                    alists,
                    otherwise,
                    scope,
                    levels - 1,
                    found.left,
                )
            } else {
                at_once(setting, arena, alists, then, scope, levels - 1, found.left)
            }
        }
        _ => Err(Stop::Beyond),
    }
}

/// What a primitive gives at once; nothing for any other term.
#[cycle(at_once)]
#[inline(never)]
fn operation(
    setting: &Setting,
    arena: &mut HonsArena,
    alists: &mut FastAlists,
    term: &Term,
    scope: &Scope,
    levels: u64,
    left: u64,
) -> Result<Found, Stop>
    requires whole { IsWhole arena.old }
    requires scope { IsLiveScope arena.old.objects scope.now }
    requires agree { Agree arena.old.objects alists.old }
    requires levels { 0 < levels }
    requires left { 0 < left }
    ensures { TellsIn setting.now scope.now (term_of term.now) left arena.old arena.new alists.new result }
{
    match term {
        Term::Prim(prim, terms) => {
            let terms = terms.as_slice();
            if terms.len() == 1 {
                unary(
                    setting, arena, alists, *prim, &terms[0], scope, levels, left,
                )
            } else if terms.len() == 2 {
                binary(
                    setting, arena, alists, *prim, &terms[0], &terms[1], scope, levels, left,
                )
            } else {
                Err(Stop::Beyond)
            }
        }
        _ => Err(Stop::Beyond),
    }
}

/// What a primitive of one argument gives at once.
#[cycle(at_once)]
fn unary(
    setting: &Setting,
    arena: &mut HonsArena,
    alists: &mut FastAlists,
    prim: Prim,
    term: &Term,
    scope: &Scope,
    levels: u64,
    left: u64,
) -> Result<Found, Stop>
    requires whole { IsWhole arena.old }
    requires scope { IsLiveScope arena.old.objects scope.now }
    requires agree { Agree arena.old.objects alists.old }
    requires levels { 0 < levels }
    requires left { 0 < left }
    ensures { TellsIn setting.now scope.now (unary_term prim (term_of term.now)) left arena.old arena.new alists.new result }
{
    let x = at_once(setting, arena, alists, term, scope, levels - 1, left - 1)?;
    let value = apply(arena, prim, x.value, NOTHING)?;
    Ok(Found {
        value,
        left: x.left,
    })
}

/// What a primitive of two arguments gives at once.
#[cycle(at_once)]
fn binary(
    setting: &Setting,
    arena: &mut HonsArena,
    alists: &mut FastAlists,
    prim: Prim,
    first: &Term,
    second: &Term,
    scope: &Scope,
    levels: u64,
    left: u64,
) -> Result<Found, Stop>
    requires whole { IsWhole arena.old }
    requires scope { IsLiveScope arena.old.objects scope.now }
    requires agree { Agree arena.old.objects alists.old }
    requires levels { 0 < levels }
    requires left { 0 < left }
    ensures { TellsIn setting.now scope.now (binary_term prim (term_of first.now) (term_of second.now)) left arena.old arena.new alists.new result }
{
    let x = at_once(setting, arena, alists, first, scope, levels - 1, left - 1)?;
    let y = at_once(setting, arena, alists, second, scope, levels - 1, x.left)?;
    let value = apply(arena, prim, x.value, y.value)?;
    Ok(Found {
        value,
        left: y.left,
    })
}

/// What a call gives at once that `zp`, tables or a small definition answer; nothing for any other term.
#[cycle(at_once)]
#[inline(never)]
fn opened(
    setting: &Setting,
    arena: &mut HonsArena,
    alists: &mut FastAlists,
    term: &Term,
    scope: &Scope,
    levels: u64,
    left: u64,
) -> Result<Found, Stop>
    requires whole { IsWhole arena.old }
    requires scope { IsLiveScope arena.old.objects scope.now }
    requires agree { Agree arena.old.objects alists.old }
    requires levels { 0 < levels }
    requires left { 0 < left }
    ensures { TellsIn setting.now scope.now (term_of term.now) left arena.old arena.new alists.new result }
{
    match term {
        Term::Call(f, terms) => {
            let terms = terms.as_slice();
            if is_zp(setting.world, setting.functions, *f) {
                return zero(setting, arena, alists, terms, scope, levels - 1, left - 1);
            }
            if is_answered(setting.world, *f) {
                // Read for what it tells of the world: its definitions are cliques of admissible ones.
                let _count = setting.world.count();
                let given = arguments(setting, arena, alists, terms, scope, levels - 1, left - 1)?;
                return answered(arena, alists, *f, given);
            }
            if !opens_at_once(setting.world, setting.functions, *f) {
                return Err(Stop::Beyond);
            }
            let given = arguments(setting, arena, alists, terms, scope, levels - 1, left - 1)?;
            body(
                setting,
                arena,
                alists,
                setting.world.def(*f),
                given,
                levels - 1,
            )
        }
        _ => Err(Stop::Beyond),
    }
}

/// What the body of a definition of one formal or two gives at once on values of the arguments.
#[cycle(at_once)]
#[inline(always)]
fn body(
    setting: &Setting,
    arena: &mut HonsArena,
    alists: &mut FastAlists,
    def: &Def,
    given: Given,
    levels: u64,
) -> Result<Found, Stop>
    requires whole { IsWhole arena.old }
    requires first { IsLiveValue arena.old.objects given.first }
    requires second { IsLiveValue arena.old.objects given.second }
    requires agree { Agree arena.old.objects alists.old }
    ensures { BodyTells setting.now (definition_of def.now) given arena.old arena.new alists.new result }
{
    if def.formals.len() == 1 {
        let locals = [local(&def.formals, 0, given.first)];
        let scope = Scope::Inner(&locals);
        at_once(
            setting, arena, alists, &def.body, &scope, levels, given.left,
        )
    } else if def.formals.len() == 2 {
        let locals = [
            local(&def.formals, 0, given.first),
            local(&def.formals, 1, given.second),
        ];
        let scope = Scope::Inner(&locals);
        at_once(
            setting, arena, alists, &def.body, &scope, levels, given.left,
        )
    } else {
        Err(Stop::Beyond)
    }
}

/// What a function that tables answer gives at once on values of the arguments.
#[inline(never)]
fn answered(
    arena: &mut HonsArena,
    alists: &mut FastAlists,
    f: FnId,
    given: Given,
) -> Result<Found, Stop>
    requires whole { IsWhole arena.old }
    requires first { IsLiveValue arena.old.objects given.first }
    requires second { IsLiveValue arena.old.objects given.second }
    requires third { IsLiveValue arena.old.objects given.third }
    requires agree { Agree arena.old.objects alists.old }
    ensures { TablesTell f.number given arena.old arena.new alists.new result }
{
    match ids_of(arena, given) {
        Ok(ids) => match answer(arena, alists, f, &[ids.first, ids.second, ids.third]) {
            Ok(id) => Ok(Found {
                value: Value::of(id),
                left: given.left,
            }),
            Err(AlistFault::Full) => Err(Stop::Beyond),
            Err(AlistFault::Memory) => Err(Stop::Memory),
        },
        Err(_) => Err(Stop::Beyond),
    }
}

/// What a call of `zp` gives at once, behind the visit of the call itself.
#[cycle(at_once)]
#[inline(never)]
fn zero(
    setting: &Setting,
    arena: &mut HonsArena,
    alists: &mut FastAlists,
    terms: &[Term],
    scope: &Scope,
    levels: u64,
    left: u64,
) -> Result<Found, Stop>
    requires whole { IsWhole arena.old }
    requires scope { IsLiveScope arena.old.objects scope.now }
    requires agree { Agree arena.old.objects alists.old }
    ensures { ZeroTells setting.now scope.now (terms_of terms.now) left arena.old arena.new alists.new result }
{
    if terms.len() != 1 {
        return Err(Stop::Beyond);
    }
    let x = at_once(setting, arena, alists, &terms[0], scope, levels, left)?;
    let test = zero_test(arena, x.value);
    if x.left < test.visits {
        return Err(Stop::Beyond);
    }
    Ok(Found {
        value: Value::truth(test.holds),
        left: x.left - test.visits,
    })
}

/// The ids of the values of arguments.
#[inline(always)]
fn ids_of(arena: &mut HonsArena, given: Given) -> Result<Ids, Full>
    requires whole { IsWhole arena.old }
    requires first { IsLiveValue arena.old.objects given.first }
    requires second { IsLiveValue arena.old.objects given.second }
    requires third { IsLiveValue arena.old.objects given.third }
    ensures { EntersThree given arena.old arena.new result }
{
    let first = given.first.enter(arena)?;
    let second = given.second.enter(arena)?;
    let third = given.third.enter(arena)?;
    Ok(Ids {
        first,
        second,
        third,
    })
}

/// The values of one to three arguments.
#[cycle(at_once)]
#[inline(never)]
fn arguments(
    setting: &Setting,
    arena: &mut HonsArena,
    alists: &mut FastAlists,
    terms: &[Term],
    scope: &Scope,
    levels: u64,
    left: u64,
) -> Result<Given, Stop>
    requires whole { IsWhole arena.old }
    requires scope { IsLiveScope arena.old.objects scope.now }
    requires agree { Agree arena.old.objects alists.old }
    ensures { TellsAllIn setting.now scope.now (terms_of terms.now) left arena.old arena.new alists.new result }
{
    let count = terms.len();
    if count == 0 || count > 3 {
        return Err(Stop::Beyond);
    }
    let first = at_once(setting, arena, alists, &terms[0], scope, levels, left)?;
    if count == 1 {
        return Ok(Given {
            first: first.value,
            second: NOTHING,
            third: NOTHING,
            left: first.left,
        });
    }
    let second = at_once(setting, arena, alists, &terms[1], scope, levels, first.left)?;
    if count == 2 {
        return Ok(Given {
            first: first.value,
            second: second.value,
            third: NOTHING,
            left: second.left,
        });
    }
    let third = at_once(
        setting,
        arena,
        alists,
        &terms[2],
        scope,
        levels,
        second.left,
    )?;
    Ok(Given {
        first: first.value,
        second: second.value,
        third: third.value,
        left: third.left,
    })
}
