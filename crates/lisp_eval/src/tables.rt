//! What tables of lists answer.

ghost use Rattle.fast_alists.specs.Makes.{Makes};
ghost use Rattle.fast_alists.specs.Tables.{Agree};
ghost use Rattle.hons_arena.specs.Held.{IsWhole};
ghost use Rattle.hons_arena.specs.Ids.{object_at, IsLive, IsIdOf};
ghost use Rattle.fast_alists.specs.Alists.{first_pair};
ghost use Rattle.fast_alists.specs.Values.{pair_or_nil};
ghost use Rattle.lisp_eval.specs.Bindings.{id_or_nil};
ghost use Rattle.lisp_eval.specs.Tables.{table_value, answer_object};

use crate::bindings::id_at;
use fast_alists::{AlistFault, FastAlists};
use gl_logic::FnId;
use hons_arena::{HonsArena, Id};

/// The functions that tables answer, by their numbers: six ground definitions one behind the other. This is the first.
pub const HONS_ACONS: u64 = 37;

/// `make-fast-alist`.
pub const MAKE_FAST_ALIST: u64 = 38;

/// `fast-alist-free`.
pub const FAST_ALIST_FREE: u64 = 39;

/// `hons-assoc-equal`.
pub const HONS_ASSOC_EQUAL: u64 = 40;

/// `hons-get`.
pub const HONS_GET: u64 = 41;

/// `fast-alist-fork`, the last.
pub const FAST_ALIST_FORK: u64 = 42;

/// The value of a function that tables answer, on its first arguments. One that lacks is NIL.
#[inline(always)]
pub fn answer(
    arena: &mut HonsArena,
    alists: &mut FastAlists,
    f: FnId,
    args: &[Id],
) -> Result<Id, AlistFault>
    requires agree { Agree arena.old.objects alists.old }
    requires x { IsLive arena.old.objects (id_or_nil args.now 0) }
    requires y { IsLive arena.old.objects (id_or_nil args.now 1) }
    requires z { IsLive arena.old.objects (id_or_nil args.now 2) }
    ensures makes { Makes arena.old arena.new (answer_object arena.old.objects f.number args.now) result }
    ensures agree { Agree arena.new.objects alists.new }
    ensures whole { IsWhole arena.new }
{
    let answer = answer_at(
        arena,
        alists,
        f,
        id_at(args, 0),
        id_at(args, 1),
        id_at(args, 2),
    );
    // Read for what it tells of the arena: no cell is there twice.
    let _count = arena.count();
    answer
}

/// The value of a function that tables answer, on three arguments.
#[inline(always)]
fn answer_at(
    arena: &mut HonsArena,
    alists: &mut FastAlists,
    f: FnId,
    x: Id,
    y: Id,
    z: Id,
) -> Result<Id, AlistFault>
    requires agree { Agree arena.old.objects alists.old }
    requires x { IsLive arena.old.objects x }
    requires y { IsLive arena.old.objects y }
    requires z { IsLive arena.old.objects z }
    ensures makes { Makes arena.old arena.new (table_value f.number (object_at arena.old.objects x) (object_at arena.old.objects y) (object_at arena.old.objects z)) result }
    ensures agree { Agree arena.new.objects alists.new }
{
    if f.number == HONS_ACONS {
        return alists.acons(arena, x, y, z);
    }
    if f.number == FAST_ALIST_FORK {
        return alists.fork(arena, x, y);
    }
    if f.number == HONS_ASSOC_EQUAL {
        return Ok(got(arena, alists, x, y));
    }
    if f.number == HONS_GET {
        return Ok(got(arena, alists, x, y));
    }
    if f.number == FAST_ALIST_FREE {
        alists.free(x);
    }
    // `make-fast-alist` and `fast-alist-free` give the list itself
    Ok(x)
}

/// The first pair of a list with a key, NIL where there is none.
fn got(arena: &HonsArena, alists: &FastAlists, key: Id, alist: Id) -> Id
    requires agree { Agree arena.now.objects alists.now }
    requires key { IsLive arena.now.objects key }
    requires alist { IsLive arena.now.objects alist }
    ensures { IsIdOf arena.now.objects (pair_or_nil (first_pair (object_at arena.now.objects key) (object_at arena.now.objects alist))) result }
{
    match alists.get(arena, key, alist) {
        Some(pair) => pair,
        None => id_at(&[], 0),
    }
}
