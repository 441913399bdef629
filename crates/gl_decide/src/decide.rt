//! The verdict on a theorem.

ghost use Rattle.std.specs.Prelude.{◌≡◌, ◌<◌, ◌≤◌};
ghost use Rattle.gl_logic.specs.TermOf.{term_of};
ghost use Rattle.gl_logic.specs.IsTermOf.{IsTermOf};
ghost use Rattle.shape_spec.specs.Indices.{width_of};
ghost use Rattle.coverage.specs.Sound.{AllAreBound};
ghost use Rattle.lisp_eval.specs.Machines.{AreFunctionsOf};
ghost use Rattle.gl_decide.specs.Bounds.{bounds_of};
ghost use Rattle.gl_decide.specs.Rooms.{LeavesStores};
ghost use Rattle.shape_spec.specs.TheoremSeen.{theorem_seen};
ghost use Rattle.gl_decide.specs.Verdicts.{IsCovered, IsProperVerdict};
ghost use Rattle.gl_decide.specs.Answered.{IsCoveredIn, IsOtherwise, IsRefutedAt, IsStalled, IsStoppedAt};

use super::gate::OpenGate;
use super::otherwise::decide_otherwise;
use super::scanned::Scan;
use super::scanning::scan;
use super::stall::{StallCause, make_stall};
use super::verdict::Verdict;
use super::verdict_of::{cause_of, verdict_of};
use bdd_store::Bdd;
use bfr_store::Meaning;
use coverage::covers;
use gl_base::limits::Limits;
use gl_logic::World;
use gl_logic::ground_laws::ground_calls;
use gl_symbolic::{Room, decide_in_mode};
use lisp_eval::EvalFault;
use sat_core::AigSat;
use shape_spec::{Part, Thm, bit_count, input_numbered};
use std::alloc::Global;
use std::thread::Threads;

/// Decides a theorem: by cover, and then by one symbolic run in its mode. Where that runs out of nodes or clauses, every
/// input of a theorem of at most `limits.enum_bits` indices is tried. A wider one is tried in the modes behind its own: of
/// mode Bdd in mode Param and then in mode Sat, of mode Param in mode Sat. What they leave undecided is Nodes or Clauses.
///
/// The stores of the run in the theorem's mode stay in the room: full ones after Nodes; after Clauses one whose searches have
/// learned `limits.clauses` clauses together; after Proved and Vacuous of a wider theorem in mode Sat the book that shows it.
pub fn decide_theorem<R: Threads + Sync>(
    rt: &R,
    alloc: Global,
    world: &World,
    thm: &Thm,
    limits: &Limits,
    room: &mut Room,
) -> Verdict
    requires hyp { IsTermOf world.now.definitions (term_of thm.now.hyp) }
    requires concl { IsTermOf world.now.definitions (term_of thm.now.concl) }
    requires functions { AreFunctionsOf world.now thm.now.memoized }
    requires bound { AllAreBound (term_of thm.now.hyp) (term_of thm.now.concl) thm.now.bindings }
    requires empty { room.old ≡ Room.Empty }
    ensures proper { IsProperVerdict world.now (bounds_of limits.now) (theorem_seen thm.now) result }
    ensures room { LeavesStores ⟦<Bdd as Meaning>⟧ ⟦<AigSat as Meaning>⟧ (bounds_of limits.now) (theorem_seen thm.now) result room.new }
{
    match covers(alloc, &thm.hyp, &thm.concl, &thm.bindings) {
        Ok(None) => {
            let (verdict, left) = decide_covered(rt, alloc, world, thm, limits);
            *room = left;
            verdict
        }
        Ok(Some(variable)) => Verdict::Uncovered(variable),
        Err(_) => Verdict::Memory,
    }
}

/// Decides a covered theorem. The verdict, and the stores of the run in its mode as it leaves them.
fn decide_covered<R: Threads + Sync>(
    rt: &R,
    alloc: Global,
    world: &World,
    thm: &Thm,
    limits: &Limits,
) -> (Verdict, Room)
    requires hyp { IsTermOf world.now.definitions (term_of thm.now.hyp) }
    requires concl { IsTermOf world.now.definitions (term_of thm.now.concl) }
    requires functions { AreFunctionsOf world.now thm.now.memoized }
    requires bound { AllAreBound (term_of thm.now.hyp) (term_of thm.now.concl) thm.now.bindings }
    requires covered { IsCovered (theorem_seen thm.now) }
    ensures proper { IsProperVerdict world.now (bounds_of limits.now) (theorem_seen thm.now) result.0 }
    ensures room { LeavesStores ⟦<Bdd as Meaning>⟧ ⟦<AigSat as Meaning>⟧ (bounds_of limits.now) (theorem_seen thm.now) result.0 result.1 }
{
    // every term of the world has a value, its first definitions are the ground ones, and no index is bound twice
    let _count = world.count();
    ground_calls();
    let _bits = bit_count(&thm.bindings);
    let (decision, left) = decide_in_mode(alloc, world, thm, limits);
    match cause_of(&decision, limits) {
        Some(cause) => (give_up(rt, alloc, world, thm, limits, cause), left),
        None => match verdict_of(alloc, thm, decision) {
            Ok(verdict) => (verdict, left),
            Err(_) => (Verdict::Memory, left),
        },
    }
}

/// Decides a covered theorem whose run in its mode ran out.
fn give_up<R: Threads + Sync>(
    rt: &R,
    alloc: Global,
    world: &World,
    thm: &Thm,
    limits: &Limits,
    cause: StallCause,
) -> Verdict
    requires covered { IsCoveredIn world.now (theorem_seen thm.now) }
    requires functions { AreFunctionsOf world.now thm.now.memoized }
    ensures scanned { width_of thm.now.bindings ≤ limits.now.enum_bits → IsProperVerdict world.now (bounds_of limits.now) (theorem_seen thm.now) result }
    ensures wide { limits.now.enum_bits < width_of thm.now.bindings → IsOtherwise world.now (bounds_of limits.now) (theorem_seen thm.now) cause result }
{
    if bit_count(&thm.bindings) <= u32::from(limits.enum_bits) {
        decide_by_scan(rt, alloc, world, thm, limits)
    } else {
        match decide_otherwise(alloc, world, thm, limits) {
            Some(verdict) => verdict,
            None => stalled(world, thm, cause),
        }
    }
}

/// The verdict that a decision ran out.
pub(crate) fn stalled(world: &World, thm: &Thm, cause: StallCause) -> Verdict
    ensures { IsStalled world.now (theorem_seen thm.now) cause result }
{
    let stall = make_stall(cause, world, thm);
    match cause {
        StallCause::Nodes(_) => Verdict::Nodes(stall),
        StallCause::Clauses(_) => Verdict::Clauses(stall),
    }
}

/// Decides a covered theorem of at most `limits.enum_bits` indices by trying every input.
fn decide_by_scan<R: Threads + Sync>(
    rt: &R,
    alloc: Global,
    world: &World,
    thm: &Thm,
    limits: &Limits,
) -> Verdict
    requires covered { IsCoveredIn world.now (theorem_seen thm.now) }
    requires functions { AreFunctionsOf world.now thm.now.memoized }
    requires few { width_of thm.now.bindings ≤ limits.now.enum_bits }
    ensures { IsProperVerdict world.now (bounds_of limits.now) (theorem_seen thm.now) result }
{
    // at most 16 indices are scanned
    let _bits = limits.enum_bits;
    match scan(rt, alloc, world, thm, limits, &OpenGate) {
        Scan::Clean(true) => Verdict::Proved,
        Scan::Clean(false) => Verdict::Vacuous,
        Scan::Refutes(number) => refuted(alloc, thm, number),
        Scan::Stopped(number, part, fault) => stopped(alloc, thm, number, part, fault),
        Scan::Memory => Verdict::Memory,
    }
}

/// The verdict that a number's input refutes.
fn refuted(alloc: Global, thm: &Thm, number: u32) -> Verdict
    ensures { IsRefutedAt (theorem_seen thm.now) number result }
{
    match input_numbered(alloc, &thm.bindings, u64::from(number)) {
        Ok(input) => Verdict::Refuted(input),
        Err(_) => Verdict::Memory,
    }
}

/// The verdict that a part has no answer on a number's input.
fn stopped(alloc: Global, thm: &Thm, number: u32, part: Part, fault: EvalFault) -> Verdict
    ensures { IsStoppedAt (theorem_seen thm.now) number part fault result }
{
    let Ok(input) = input_numbered(alloc, &thm.bindings, u64::from(number)) else {
        return Verdict::Memory;
    };
    match fault {
        EvalFault::Width => Verdict::Width(part, input),
        EvalFault::Steps => Verdict::Steps(part, input),
        EvalFault::Cells => Verdict::Cells(part, input),
        EvalFault::Memory => Verdict::Memory,
    }
}
