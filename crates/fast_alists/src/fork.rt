//! Putting the pairs of one list in front of another, each key once.

ghost use Rattle.std.specs.Prelude.{IfOk};
ghost use Rattle.hons_arena.specs.Ids.{object_at, IsLive};
ghost use Rattle.fast_alists.specs.Alists.{with_pair_object, forked_object};
ghost use Rattle.fast_alists.specs.Makes.{GoesOn};
ghost use Rattle.fast_alists.specs.Tables.{IsTable};

use crate::fault::AlistFault;
use crate::table::Table;
use crate::walk::parts;
use hons_arena::{HonsArena, Id};

/// The list with each pair of another in turn put in front whose key no pair has by then. The table is that of the
/// list, and then of the answer.
pub fn fork_onto(
    arena: &mut HonsArena,
    table: &mut Table,
    alist: Id,
    ans: Id,
) -> Result<Id, AlistFault>
    requires alist { IsLive arena.old.objects alist }
    requires table { IsTable arena.old.objects ans table.old }
    ensures makes { GoesOn arena.old arena.new (forked_object arena.old.objects alist ans) result }
    ensures table { IfOk result (λ id. IsTable arena.new.objects id table.new) }
{
    let mut list = alist;
    let mut forked = ans;
    while let Some((element, rest)) = parts(arena, list) {
        forked = put_in_front(arena, table, element, forked)?;
        list = rest;
    }
    Ok(forked)
}

/// The list with one more element in front, if it is a pair with a new key.
fn put_in_front(
    arena: &mut HonsArena,
    table: &mut Table,
    element: Id,
    ans: Id,
) -> Result<Id, AlistFault>
    requires element { IsLive arena.old.objects element }
    requires table { IsTable arena.old.objects ans table.old }
    ensures makes { GoesOn arena.old arena.new (with_pair_object arena.old.objects element ans) result }
    ensures table { IfOk result (λ id. IsTable arena.new.objects id table.new) }
{
    let is_live = arena.is_live(element);
    prove!(is_live);
    match parts(arena, element) {
        None => Ok(ans),
        Some((key, _)) => match table.pair(key) {
            Some(_) => Ok(ans),
            None => {
                let extended = arena.cons(element, ans)?;
                table.put(key, element)?;
                Ok(extended)
            }
        },
    }
}
