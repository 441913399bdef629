//! The pieces of a scan, one for each worker, and the inputs of a piece, tried one after the other.

ghost use Rattle.std.specs.Prelude.{◌≡◌, ◌<◌, ◌≤◌, [], IfOk};
ghost use Rattle.gl_logic.specs.TermOf.{term_of};
ghost use Rattle.gl_logic.specs.IsTermOf.{IsTermOf};
ghost use Rattle.lisp_eval.specs.Machines.{AreFunctionsOf};
ghost use Rattle.shape_spec.specs.TheoremSeen.{theorem_seen};
ghost use Rattle.gl_decide.specs.Scans.{IsProperAmong};
ghost use Rattle.gl_decide.specs.Trials.{IsReady};
ghost use Rattle.gl_decide.specs.Pieces.{Follow};

use super::piece::Piece;
use super::scanned::Scan;
use super::trial::{Trial, tried};
use gl_base::limits::Limits;
use gl_logic::{NoMemory, World};
use lisp_eval::{EvalFault, Machine};
use shape_spec::{Part, Thm};
use std::alloc::Global;

/// The pieces of so many numbers for so many workers: as many as there are workers, or numbers where they are fewer.
pub(crate) fn pieces_of(alloc: Global, count: u32, workers: u32) -> Result<Vec<Piece>, NoMemory>
    requires some { 1 ≤ count }
    requires few { count ≤ 65536 }
    requires one { 1 ≤ workers }
    requires eight { workers ≤ 8 }
    ensures { IfOk result (λ v. Follow 0 v.items count) }
{
    let parts = workers.min(count);
    let mut pieces = Vec::new(alloc);
    for k in 0..parts {
        pieces.push(Piece {
            number: k,
            first: k * count / parts,
            end: (k + 1) * count / parts,
        })?;
    }
    Ok(pieces)
}

/// Tries the numbers of a piece with a machine of its own.
pub(crate) fn scan_piece(
    alloc: Global,
    world: &World,
    thm: &Thm,
    limits: &Limits,
    piece: Piece,
) -> Scan
    requires hyp { IsTermOf world.now.definitions (term_of thm.now.hyp) }
    requires concl { IsTermOf world.now.definitions (term_of thm.now.concl) }
    requires functions { AreFunctionsOf world.now thm.now.memoized }
    ensures { IsProperAmong world.now limits.now.steps limits.now.cells (theorem_seen thm.now) piece.first piece.end result }
{
    // every term of the world has a value
    let _count = world.count();
    let Ok(mut machine) = Machine::new(alloc, limits) else {
        return Scan::Memory;
    };
    match machine.begin(world, &thm.memoized) {
        Ok(()) => scan_with(alloc, &mut machine, world, thm, piece.first, piece.end),
        Err(EvalFault::Memory) => Scan::Memory,
        Err(fault) => Scan::Stopped(piece.first, Part::Hyp, fault),
    }
}

/// Tries the numbers from the first up to but not including the end, up to the first that refutes or has no answer.
fn scan_with(
    alloc: Global,
    machine: &mut Machine,
    world: &World,
    thm: &Thm,
    first: u32,
    end: u32,
) -> Scan
    requires hyp { IsTermOf world.now.definitions (term_of thm.now.hyp) }
    requires concl { IsTermOf world.now.definitions (term_of thm.now.concl) }
    requires ready { IsReady world.now (theorem_seen thm.now) machine.old }
    requires some { first ≤ end }
    ensures { IsProperAmong world.now machine.old.steps machine.old.arena.limit (theorem_seen thm.now) first end result }
{
    let mut met = false;
    for number in first..end {
        match tried(alloc, machine, world, thm, u64::from(number)) {
            Trial::Unmet => {}
            Trial::Passes => met = true,
            Trial::Refutes => return Scan::Refutes(number),
            Trial::Stopped(_, EvalFault::Memory) => return Scan::Memory,
            Trial::Stopped(part, fault) => return Scan::Stopped(number, part, fault),
        }
    }
    Scan::Clean(met)
}
