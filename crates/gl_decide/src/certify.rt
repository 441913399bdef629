//! The book that shows a theorem.

ghost use Rattle.std.specs.Prelude.{◌≡◌, ◌<◌, ◌≤◌, IfOk, IfErr, IfSome, IfNone};
ghost use Rattle.gl_logic.specs.TermOf.{term_of};
ghost use Rattle.gl_logic.specs.IsTermOf.{IsTermOf};
ghost use Rattle.shape_spec.specs.Indices.{width_of};
ghost use Rattle.coverage.specs.Sound.{AllAreBound};
ghost use Rattle.lisp_eval.specs.Machines.{AreFunctionsOf};
ghost use Rattle.cnf_rup.specs.Refutations.{IsRefutation};
ghost use Rattle.gl_symbolic.specs.Books.{HoldsEmpty};
ghost use Rattle.gl_decide.specs.Bounds.{bounds_of};
ghost use Rattle.gl_decide.specs.Rooms.{LeavesStores};
ghost use Rattle.shape_spec.specs.TheoremSeen.{theorem_seen};
ghost use Rattle.gl_decide.specs.Verdicts.{IsCovered, IsProperVerdict};
ghost use Rattle.gl_decide.specs.Certificates.{IsCertificate, IsOpen, unscanned};
ghost use Rattle.gl_decide.specs.ShownRooms.{IsShownIn};

use super::decide::stalled;
use super::verdict::Verdict;
use super::verdict_of::{cause_of, verdict_of};
use bdd_store::Bdd;
use bfr_store::{Bits, Meaning};
use cnf_rup::{ClauseBook, trimmed};
use coverage::covers;
use gl_base::limits::Limits;
use gl_logic::World;
use gl_logic::ground_laws::ground_calls;
use gl_symbolic::{Room, decide_in_mode};
use sat_core::AigSat;
use shape_spec::{Mode, Thm, bit_count};
use std::alloc::Global;
use sym_objects::Sobs;

/// Decides a theorem of mode Sat without trying its inputs, and hands out the book that shows it. Elsewhere the verdict,
/// which is neither Proved nor Vacuous.
///
/// For a theorem whose hypothesis nothing meets the book is the one that shows that.
pub fn certificate(
    alloc: Global,
    world: &World,
    thm: &Thm,
    limits: &Limits,
    room: &mut Room,
) -> Result<ClauseBook, Verdict>
    requires hyp { IsTermOf world.now.definitions (term_of thm.now.hyp) }
    requires concl { IsTermOf world.now.definitions (term_of thm.now.concl) }
    requires functions { AreFunctionsOf world.now thm.now.memoized }
    requires bound { AllAreBound (term_of thm.now.hyp) (term_of thm.now.concl) thm.now.bindings }
    requires mode { thm.now.mode ≡ Mode.Sat }
    requires some { 0 < width_of thm.now.bindings }
    requires empty { room.old ≡ Room.Empty }
    ensures book { IfOk result (IsCertificate world.now (theorem_seen thm.now)) }
    ensures proper { IfErr result (IsProperVerdict world.now (unscanned (bounds_of limits.now)) (theorem_seen thm.now)) }
    ensures open { IfErr result IsOpen }
    ensures room { IfErr result (λ v. LeavesStores ⟦<Bdd as Meaning>⟧ ⟦<AigSat as Meaning>⟧ (unscanned (bounds_of limits.now)) (theorem_seen thm.now) v room.new) }
{
    match covers(alloc, &thm.hyp, &thm.concl, &thm.bindings) {
        Ok(None) => certify_covered(alloc, world, thm, limits, room),
        Ok(Some(variable)) => Err(Verdict::Uncovered(variable)),
        Err(_) => Err(Verdict::Memory),
    }
}

/// The same for a covered theorem.
fn certify_covered(
    alloc: Global,
    world: &World,
    thm: &Thm,
    limits: &Limits,
    room: &mut Room,
) -> Result<ClauseBook, Verdict>
    requires hyp { IsTermOf world.now.definitions (term_of thm.now.hyp) }
    requires concl { IsTermOf world.now.definitions (term_of thm.now.concl) }
    requires functions { AreFunctionsOf world.now thm.now.memoized }
    requires bound { AllAreBound (term_of thm.now.hyp) (term_of thm.now.concl) thm.now.bindings }
    requires mode { thm.now.mode ≡ Mode.Sat }
    requires some { 0 < width_of thm.now.bindings }
    requires covered { IsCovered (theorem_seen thm.now) }
    ensures book { IfOk result (IsCertificate world.now (theorem_seen thm.now)) }
    ensures proper { IfErr result (IsProperVerdict world.now (unscanned (bounds_of limits.now)) (theorem_seen thm.now)) }
    ensures open { IfErr result IsOpen }
    ensures room { IfErr result (λ v. LeavesStores ⟦<Bdd as Meaning>⟧ ⟦<AigSat as Meaning>⟧ (unscanned (bounds_of limits.now)) (theorem_seen thm.now) v room.new) }
{
    let (verdict, left) = decide_unscanned(alloc, world, thm, limits);
    *room = left;
    match verdict {
        Verdict::Proved => shown(alloc, room),
        Verdict::Vacuous => shown(alloc, room),
        verdict => Err(verdict),
    }
}

/// The book of the last decision, with those of the learned clauses that the empty one needs.
fn shown(alloc: Global, room: &mut Room) -> Result<ClauseBook, Verdict>
    requires shown { IsShownIn ⟦<AigSat as Meaning>⟧ room.old }
    ensures book { IfOk result IsRefutation }
    ensures always { IfErr result (λ v. ⊥) }
{
    match take(room) {
        Some(book) => Ok(trimmed(alloc, book)),
        None => Err(Verdict::Memory),
    }
}

/// Takes the book of a search's last decision.
fn take(room: &mut Room) -> Option<ClauseBook>
    requires shown { IsShownIn ⟦<AigSat as Meaning>⟧ room.old }
    ensures always { IfNone result ⊥ }
    ensures book { IfSome result IsRefutation }
{
    match room {
        Room::Sat(objs) => take_book(objs),
        _ => None,
    }
}

/// Takes the book of the last decision.
fn take_book(objs: &mut Sobs<AigSat>) -> Option<ClauseBook>
    requires shown { HoldsEmpty objs.old.store }
    requires limit { ⟦<AigSat as Meaning>⟧.limit_of objs.old.store ≤ 4000000 }
    ensures always { IfNone result ⊥ }
    ensures book { IfSome result IsRefutation }
{
    let store = objs.store();
    // Read for what it tells of the count of nodes, and below of the book: each clause follows from the first ones.
    let _count = store.count();
    let book = store.take_book();
    if let Some(book) = &book {
        let _book = book.count();
    }
    book
}

/// The verdict on a covered theorem by its symbolic run alone, and the stores of the run as it leaves them.
fn decide_unscanned(alloc: Global, world: &World, thm: &Thm, limits: &Limits) -> (Verdict, Room)
    requires hyp { IsTermOf world.now.definitions (term_of thm.now.hyp) }
    requires concl { IsTermOf world.now.definitions (term_of thm.now.concl) }
    requires functions { AreFunctionsOf world.now thm.now.memoized }
    requires bound { AllAreBound (term_of thm.now.hyp) (term_of thm.now.concl) thm.now.bindings }
    requires some { 0 < width_of thm.now.bindings }
    requires covered { IsCovered (theorem_seen thm.now) }
    ensures proper { IsProperVerdict world.now (unscanned (bounds_of limits.now)) (theorem_seen thm.now) result.0 }
    ensures room { LeavesStores ⟦<Bdd as Meaning>⟧ ⟦<AigSat as Meaning>⟧ (unscanned (bounds_of limits.now)) (theorem_seen thm.now) result.0 result.1 }
{
    // every term of the world has a value, its first definitions are the ground ones, and no index is bound twice
    let _count = world.count();
    ground_calls();
    let _bits = bit_count(&thm.bindings);
    let (decision, left) = decide_in_mode(alloc, world, thm, limits);
    match cause_of(&decision, limits) {
        Some(cause) => (stalled(world, thm, cause), left),
        None => match verdict_of(alloc, thm, decision) {
            Ok(verdict) => (verdict, left),
            Err(_) => (Verdict::Memory, left),
        },
    }
}
