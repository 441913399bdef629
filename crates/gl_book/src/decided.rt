//! Verdicts on theorems, and on theorems by cases.

ghost use Rattle.gl_cases.specs.ParamMade.{param_seen};
ghost use Rattle.shape_spec.specs.TheoremSeen.{theorem_seen};
ghost use Rattle.gl_decide.specs.Bounds.{bounds_of};
ghost use Rattle.gl_decide.specs.Verdicts.{IsProperVerdict};
ghost use Rattle.book_state.specs.Answerable.{IsReadyParam, IsReadyTheorem};
ghost use Rattle.gl_book.specs.Cases.{AreProperVerdicts, IsDecidedByCases};
ghost use Rattle.std.specs.Prelude.{IfOk};

use super::cases::{CasesVerdict, outcome, whole_of};
use gl_base::limits::Limits;
use gl_cases::{Outcome, ParamThm};
use gl_decide::{Room, Verdict, decide_theorem};
use gl_logic::{NoMemory, World};
use shape_spec::Thm;
use std::alloc::Global;
use std::thread::Threads;

/// The verdict on a theorem, in a room of its own.
pub(crate) fn decided<R: Threads + Sync>(
    rt: &R,
    alloc: Global,
    world: &World,
    thm: &Thm,
    limits: &Limits,
) -> Verdict
    requires { IsReadyTheorem world.now.definitions (theorem_seen thm.now) }
    ensures { IsProperVerdict world.now (bounds_of limits.now) (theorem_seen thm.now) result }
{
    let mut room = Room::Empty;
    let verdict = decide_theorem(rt, alloc, world, thm, limits, &mut room);
    drop(room);
    verdict
}

/// The verdict on a theorem by cases, whose parts are decided one after the other: the cover, and then the cases in
/// their order, up to the part that fixes the answer. That is a cover that is not proved, or the first case that is refuted.
pub(crate) fn decided_by_cases<R: Threads + Sync>(
    rt: &R,
    alloc: Global,
    world: &World,
    thm: &ParamThm,
    limits: &Limits,
) -> CasesVerdict
    requires { IsReadyParam world.now.definitions (param_seen thm.now) }
    ensures { IsDecidedByCases (bounds_of limits.now) world.now (param_seen thm.now) result }
{
    match decided_in_turn(rt, alloc, world, thm, limits) {
        Ok(verdict) => verdict,
        Err(_) => CasesVerdict::Cover(Verdict::Memory),
    }
}

/// The same, where no memory is refused to keep the parts' verdicts.
fn decided_in_turn<R: Threads + Sync>(
    rt: &R,
    alloc: Global,
    world: &World,
    thm: &ParamThm,
    limits: &Limits,
) -> Result<CasesVerdict, NoMemory>
    requires { IsReadyParam world.now.definitions (param_seen thm.now) }
    ensures { IfOk result (IsDecidedByCases (bounds_of limits.now) world.now (param_seen thm.now)) }
{
    let cover = decided(rt, alloc, world, &thm.cover, limits);
    let is_fixed = outcome(&cover) != Outcome::Proved;
    match cases_decided(is_fixed, rt, alloc, world, thm, limits) {
        Ok(cases) => whole_of(alloc, cover, cases),
        Err(fault) => {
            drop(cover);
            Err(fault)
        }
    }
}

/// The verdicts on the cases, in their order, where the answer may be fixed without them.
fn cases_decided<R: Threads + Sync>(
    is_fixed: bool,
    rt: &R,
    alloc: Global,
    world: &World,
    thm: &ParamThm,
    limits: &Limits,
) -> Result<Vec<Verdict>, NoMemory>
    requires { IsReadyParam world.now.definitions (param_seen thm.now) }
    ensures { IfOk result (λ v. AreProperVerdicts (bounds_of limits.now) world.now (param_seen thm.now).cases v.items) }
{
    let mut is_fixed = is_fixed;
    let mut cases = Vec::new(alloc);
    for i in 0..thm.cases.len() {
        let verdict = decided_unless(is_fixed, rt, alloc, world, thm.cases.at(i), limits);
        is_fixed |= outcome(&verdict) == Outcome::Refuted;
        cases.push(verdict)?;
    }
    Ok(cases)
}

/// The verdict on a case, unless the answer is fixed without it. Of a case that is not looked at nothing is claimed, as
/// where memory is refused.
fn decided_unless<R: Threads + Sync>(
    is_fixed: bool,
    rt: &R,
    alloc: Global,
    world: &World,
    thm: &Thm,
    limits: &Limits,
) -> Verdict
    requires { IsReadyTheorem world.now.definitions (theorem_seen thm.now) }
    ensures { IsProperVerdict world.now (bounds_of limits.now) (theorem_seen thm.now) result }
{
    if is_fixed {
        Verdict::Memory
    } else {
        decided(rt, alloc, world, thm, limits)
    }
}
