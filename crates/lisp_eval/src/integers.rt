//! Terms over integers of 64 bits alone, which need no arena.

ghost use Rattle.std.specs.Prelude.{◌≡◌, ◌≤◌, ℕ, List, IfOk, IfSome, length};
ghost use Rattle.gl_logic.specs.Definition.{Definition};
ghost use Rattle.gl_logic.specs.Environment.{look};
ghost use Rattle.gl_logic.specs.Object.{Object, Int};
ghost use Rattle.gl_logic.specs.TermOf.{term_of};
ghost use Rattle.lisp_eval.specs.Frameless.{BindsUpTo};
ghost use Rattle.lisp_eval.specs.Attempts.{unary_term, binary_term};
ghost use Rattle.lisp_eval.specs.Integers.{GivesInteger, IsFoundOn};
ghost use Rattle.lisp_eval.specs.Narrow.{IsNarrow};
ghost use Rattle.lisp_eval.specs.Outside.{locals_of, on_locals};

use crate::attempt::{Found, local_value};
use crate::direct::LEVELS;
use crate::value::{Local, Value};
use crate::word_arithmetic::{
    is_opposite, is_small_operation, is_small_test, small_integer, small_opposite, small_test,
};
use crate::zero::{ON_INTEGERS, is_zero, is_zp};
use gl_logic::{Names, NoMemory, Prim, Term, TextId, Tree, TreeKind, World};

/// Adds the names from a place on with the integers that their terms give on locals, up to the first term that gives none: its
/// place.
#[inline(always)]
pub fn bind_integers(
    names: &Names,
    from: usize,
    terms: &[Term],
    locals: &[Local],
    next: &mut Vec<Local>,
    left: &mut u64,
) -> Result<usize, NoMemory>
    requires count { length terms.now ≡ length names.now }
    requires within { from ≤ length terms.now }
    ensures binds { IfOk result (BindsUpTo (on_locals locals.now) names.now terms.now from left.old left.new next.old.items next.new.items) }
    ensures further { IfOk result (λ to. from ≤ to) }
{
    for i in from..terms.len() {
        let before = *left;
        match integer_at_once(&terms[i], locals, LEVELS, left) {
            Some(integer) => next.push(Local {
                name: *names.at(i as u64),
                value: Value::Int(integer),
            })?,
            None => {
                *left = before;
                return Ok(i);
            }
        }
    }
    Ok(terms.len())
}

/// What a call of `zp` on a term over integers gives on locals; nothing for any other term.
#[inline(always)]
pub fn zp_on(
    world: &World,
    functions: &[u64],
    term: &Term,
    locals: &[Local],
    left: u64,
) -> Option<Found>
    ensures { IfSome result (IsFoundOn world.now.definitions functions.now locals.now (term_of term.now) left) }
{
    match term {
        Term::Call(f, terms) => {
            let terms = terms.as_slice();
            if left == 0 || terms.len() != 1 || !is_zp(world, functions, *f) {
                return None;
            }
            let mut rest = left - 1;
            let i = integer_at_once(&terms[0], locals, LEVELS, &mut rest)?;
            if rest < ON_INTEGERS {
                return None;
            }
            Some(Found {
                value: Value::truth(is_zero(i)),
                left: rest - ON_INTEGERS,
            })
        }
        _ => None,
    }
}

/// What a test of two terms over integers gives on locals, by `<` or `equal`; nothing for any other term.
#[inline(always)]
pub fn compared_on(term: &Term, locals: &[Local], left: u64) -> Option<Found>
    ensures { IfSome result (λ f. (definitions : List Definition) (functions : List ℕ) → IsFoundOn definitions functions locals.now (term_of term.now) left f) }
{
    match term {
        Term::Prim(prim, terms) => {
            let terms = terms.as_slice();
            if left == 0 || terms.len() != 2 || !is_small_test(*prim) {
                return None;
            }
            let mut rest = left - 1;
            let a = integer_at_once(&terms[0], locals, LEVELS, &mut rest)?;
            let b = integer_at_once(&terms[1], locals, LEVELS, &mut rest)?;
            let holds = small_test(*prim, a, b)?;
            Some(Found {
                value: Value::truth(holds),
                left: rest,
            })
        }
        _ => None,
    }
}

/// The integer that a term gives at once, where its variables, its constants and each value on the way are integers of 64
/// bits; as many visits less are left then. Nothing for any other term, for more levels, and where too few visits are left.
#[cycle(integer_at_once)]
#[inline(always)]
pub fn integer_at_once(term: &Term, locals: &[Local], levels: u64, left: &mut u64) -> Option<i64>
    ensures { IfSome result (GivesInteger locals.now (term_of term.now) left.old left.new) }
{
    match term {
        Term::Var(name) => {
            if *left == 0 {
                return None;
            }
            *left -= 1;
            local_integer(locals, *name)
        }
        Term::Const(tree) => {
            if *left == 0 {
                return None;
            }
            *left -= 1;
            small_constant(tree)
        }
        _ => operation(term, locals, levels, left),
    }
}

/// What a primitive gives; nothing for any other term.
#[cycle(integer_at_once)]
#[inline(never)]
fn operation(term: &Term, locals: &[Local], levels: u64, left: &mut u64) -> Option<i64>
    ensures { IfSome result (GivesInteger locals.now (term_of term.now) left.old left.new) }
{
    match term {
        Term::Prim(prim, terms) => {
            let terms = terms.as_slice();
            if terms.len() == 1 {
                unary(*prim, &terms[0], locals, levels, left)
            } else if terms.len() == 2 {
                binary(*prim, &terms[0], &terms[1], locals, levels, left)
            } else {
                None
            }
        }
        _ => None,
    }
}

/// What a primitive of one argument gives.
#[cycle(integer_at_once)]
#[inline(always)]
fn unary(prim: Prim, term: &Term, locals: &[Local], levels: u64, left: &mut u64) -> Option<i64>
    ensures { IfSome result (GivesInteger locals.now (unary_term prim (term_of term.now)) left.old left.new) }
{
    if levels == 0 || *left == 0 || !is_opposite(prim) {
        return None;
    }
    *left -= 1;
    let a = integer_at_once(term, locals, levels - 1, left)?;
    small_opposite(prim, a)
}

/// What a primitive of two arguments gives.
#[cycle(integer_at_once)]
#[inline(always)]
fn binary(
    prim: Prim,
    first: &Term,
    second: &Term,
    locals: &[Local],
    levels: u64,
    left: &mut u64,
) -> Option<i64>
    ensures { IfSome result (GivesInteger locals.now (binary_term prim (term_of first.now) (term_of second.now)) left.old left.new) }
{
    if levels == 0 || *left == 0 || !is_small_operation(prim) {
        return None;
    }
    *left -= 1;
    let a = integer_at_once(first, locals, levels - 1, left)?;
    let b = integer_at_once(second, locals, levels - 1, left)?;
    small_integer(prim, a, b)
}

/// A constant that is an integer of 64 bits; nothing for any other.
#[inline(always)]
fn small_constant(tree: &Tree) -> Option<i64>
    ensures value { IfSome result (λ i. tree.now ≡ Int i) }
    ensures narrow { IfSome result (λ i. IsNarrow (Int i)) }
{
    match tree.kind() {
        TreeKind::Int(i) => match i64::try_from(i) {
            Ok(small) => Some(small),
            Err(_) => None,
        },
        _ => None,
    }
}

/// The integer that a local is; nothing where it is none, and for any other name.
#[inline(always)]
fn local_integer(locals: &[Local], name: TextId) -> Option<i64>
    ensures value { IfSome result (λ i. (objects : List Object) → look (locals_of objects locals.now) name.number ≡ Int i) }
    ensures narrow { IfSome result (λ i. IsNarrow (Int i)) }
{
    match local_value(locals, name) {
        Value::Int(i) => Some(i),
        _ => None,
    }
}
