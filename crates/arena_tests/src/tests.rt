//! Objects that are held once, and what is kept of them, with ample memory.

mod alists;
mod cells;
mod kept_calls;

use hons_arena::{Full, HonsArena, Id};
use std::process::Abort;

/// Stops where the comparison at this place of a table, or of this number, fails.
fn check_at(rt: &impl Abort, holds: bool, place: u64) {
    assert!(rt; holds, "at {place}");
}

/// The cons of two ids, which have to be live.
fn cons(rt: &impl Abort, arena: &mut HonsArena, first: Id, rest: Id) -> Result<Id, Full> {
    assert!(rt; arena.is_live(first) && arena.is_live(rest));
    arena.cons(first, rest)
}

/// The same, where there is room.
fn pair(rt: &impl Abort, arena: &mut HonsArena, first: Id, rest: Id) -> Id {
    cons(rt, arena, first, rest).expect(rt, "no room for a cons")
}
