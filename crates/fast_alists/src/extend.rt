//! A list with one more pair in front.

ghost use Rattle.std.specs.Prelude.{IfOk};
ghost use Rattle.hons_arena.specs.Ids.{object_at, IsLive};
ghost use Rattle.fast_alists.specs.Alists.{with_key};
ghost use Rattle.fast_alists.specs.Longer.{Extends};

use hons_arena::{Full, HonsArena, Id};

/// A list and its first pair.
#[derive(Clone, Copy)]
pub struct Longer {
    pub pair: Id,
    pub list: Id,
}

/// Puts a pair of this key and value in front of a list.
pub fn extend(arena: &mut HonsArena, key: Id, value: Id, alist: Id) -> Result<Longer, Full>
    requires key { IsLive arena.old.objects key }
    requires value { IsLive arena.old.objects value }
    requires alist { IsLive arena.old.objects alist }
    ensures { Extends arena.old arena.new key value alist result }
{
    let pair = arena.cons(key, value)?;
    let list = arena.cons(pair, alist)?;
    Ok(Longer { pair, list })
}
