//! Theorems whose own mode has run out, tried in the modes behind it.

ghost use Rattle.std.specs.Prelude.{◌≢◌, IfSome};
ghost use Rattle.lisp_eval.specs.Machines.{AreFunctionsOf};
ghost use Rattle.gl_decide.specs.Bounds.{bounds_of};
ghost use Rattle.shape_spec.specs.TheoremSeen.{theorem_seen};
ghost use Rattle.gl_decide.specs.Answered.{IsCoveredIn, IsDecidedOtherwise};

use super::verdict::Verdict;
use super::verdict_of::{cause_of, verdict_of};
use gl_base::limits::Limits;
use gl_logic::World;
use gl_symbolic::run_in_mode;
use shape_spec::{Mode, Thm};
use std::alloc::Global;

/// Decides a covered theorem whose run in its own mode has run out: of mode Bdd in mode Param and then in mode Sat, of mode
/// Param in mode Sat. None where these run out too or are refused memory, and of mode Sat, which has none behind it.
pub(crate) fn decide_otherwise(
    alloc: Global,
    world: &World,
    thm: &Thm,
    limits: &Limits,
) -> Option<Verdict>
    requires covered { IsCoveredIn world.now (theorem_seen thm.now) }
    requires functions { AreFunctionsOf world.now thm.now.memoized }
    ensures { IfSome result (IsDecidedOtherwise world.now (bounds_of limits.now) (theorem_seen thm.now)) }
{
    match thm.mode {
        Mode::Bdd => match decide_in(alloc, world, thm, Mode::Param, limits) {
            Some(verdict) => Some(verdict),
            None => decide_in(alloc, world, thm, Mode::Sat, limits),
        },
        Mode::Param => decide_in(alloc, world, thm, Mode::Sat, limits),
        Mode::Sat => None,
    }
}

/// What a run in a mode decides of a covered theorem of another one, if anything. Its stores are gone with it.
fn decide_in(
    alloc: Global,
    world: &World,
    thm: &Thm,
    mode: Mode,
    limits: &Limits,
) -> Option<Verdict>
    requires covered { IsCoveredIn world.now (theorem_seen thm.now) }
    requires functions { AreFunctionsOf world.now thm.now.memoized }
    requires mode { thm.now.mode ≢ Mode.Sat }
    ensures { IfSome result (IsDecidedOtherwise world.now (bounds_of limits.now) (theorem_seen thm.now)) }
{
    let (decision, _room) = run_in_mode(alloc, world, thm, mode, limits);
    match cause_of(&decision, limits) {
        Some(_) => None,
        None => match verdict_of(alloc, thm, decision) {
            Ok(verdict) => Some(verdict),
            Err(_) => None,
        },
    }
}
