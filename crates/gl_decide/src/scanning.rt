//! The inputs of a theorem, tried by any number of workers.

ghost use Rattle.std.specs.Prelude.{◌≡◌, ◌≤◌, ◌<◌, ◌^◌, ℕ, IfOk, length, vec_len, slice_index_or};
ghost use Rattle.gl_logic.specs.TermOf.{term_of};
ghost use Rattle.gl_logic.specs.IsTermOf.{IsTermOf};
ghost use Rattle.shape_spec.specs.Indices.{width_of};
ghost use Rattle.lisp_eval.specs.Machines.{AreFunctionsOf};
ghost use Rattle.gl_decide.specs.Bounds.{bounds_of};
ghost use Rattle.shape_spec.specs.TheoremSeen.{theorem_seen};
ghost use Rattle.gl_decide.specs.Scans.{IsProperScan};
ghost use Rattle.gl_decide.specs.Pieces.{IsProperOf};
ghost use Rattle.gl_decide.specs.Trials.{IsOfWorld};
ghost use Rattle.gl_decide.specs.declared.piece.Piece.{Piece as PieceSeen};
ghost use Rattle.gl_decide.specs.declared.scanned.Scan.{Scan as ScanSeen};

use super::gate::Gate;
use super::join::joined;
use super::piece::Piece;
use super::pieces::{pieces_of, scan_piece};
use super::scanned::Scan;
use gl_base::limits::Limits;
use gl_logic::World;
use shape_spec::{Thm, bit_count};
use std::alloc::{AllocError, Global};
use std::thread::{self, Threads};

/// 2 to an exponent.
fn power_of_two(exponent: u32) -> u32
    requires { exponent ≤ 16 }
    ensures power { result ≡ 2 ^ exponent }
    ensures some { 1 ≤ result }
    ensures few { result ≤ 65536 }
{
    1u32 << exponent
}

/// The answers of pieces, each by a worker that passes the gate when it begins.
fn answers<R: Threads + Sync, G: Gate>(
    rt: &R,
    alloc: Global,
    world: &World,
    thm: &Thm,
    limits: &Limits,
    gate: &G,
    pieces: Vec<Piece>,
) -> Result<Vec<Scan>, AllocError>
    requires hyp { IsTermOf world.now.definitions (term_of thm.now.hyp) }
    requires concl { IsTermOf world.now.definitions (term_of thm.now.concl) }
    requires functions { AreFunctionsOf world.now thm.now.memoized }
    ensures count { IfOk result (λ v. vec_len v ≡ vec_len pieces) }
    ensures each { IfOk result (λ v. (i : ℕ) (p : PieceSeen) (a : ScanSeen) → i < length pieces.items → IsProperOf world.now limits.now.steps limits.now.cells (theorem_seen thm.now) (slice_index_or pieces.items i p) (slice_index_or v.items i a)) }
{
    let each = |piece: Piece| -> Scan
        requires { IsOfWorld world.now (theorem_seen thm.now) }
        ensures { IsProperOf world.entry.now limits.entry.now.steps limits.entry.now.cells (theorem_seen thm.entry.now) piece result }
    {
        gate.enter(u64::from(piece.number));
        scan_piece(alloc, world, thm, limits, piece)
    };
    thread::map_vec(rt, pieces, &each)
}

/// Tries the inputs of a theorem of at most 16 indices, by as many workers as the limits say, each with a machine of its
/// own and a run of consecutive numbers.
///
/// Whatever the workers and the gate, a refutation is that of the least number; where an input leaves a part without an
/// answer, no smaller number refutes; and Clean comes only where no number refutes.
pub fn scan<R: Threads + Sync, G: Gate>(
    rt: &R,
    alloc: Global,
    world: &World,
    thm: &Thm,
    limits: &Limits,
    gate: &G,
) -> Scan
    requires hyp { IsTermOf world.now.definitions (term_of thm.now.hyp) }
    requires concl { IsTermOf world.now.definitions (term_of thm.now.concl) }
    requires functions { AreFunctionsOf world.now thm.now.memoized }
    requires width { width_of (theorem_seen thm.now).bindings ≤ 16 }
    ensures { IsProperScan world.now (bounds_of limits.now) (theorem_seen thm.now) result }
{
    let count = power_of_two(bit_count(&thm.bindings));
    let Ok(pieces) = pieces_of(alloc, count, u32::from(limits.workers)) else {
        return Scan::Memory;
    };
    match answers(rt, alloc, world, thm, limits, gate, pieces) {
        Ok(answers) => joined(answers.as_slice()),
        Err(_) => Scan::Memory,
    }
}
