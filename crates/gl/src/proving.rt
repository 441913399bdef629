//! A text of the proof of a book's last theorem: its clauses, or the log that refutes them.

ghost use Rattle.std.specs.Prelude.{◌≡◌, ◌≢◌, ◌⊎◌, ◌++◌, ℕ, true, false, List, [], ◌∷◌, IfErr, IfOk, OnOk};
ghost use Rattle.gl_base.specs.Outside.{Rose};
ghost use Rattle.event_world.specs.Seen.{theorem_seen};
ghost use Rattle.cnf_rup.specs.Refutations.{IsRefutation};
ghost use Rattle.gl_decide.specs.Bounds.{Bounds, bounds_of};
ghost use Rattle.gl_decide.specs.Stalls.{StallSeen};
ghost use Rattle.shape_spec.specs.TheoremSeen.{theorem_seen};
ghost use Rattle.gl_decide.specs.Verdicts.{IsProperVerdict};
ghost use Rattle.gl_decide.specs.Certificates.{IsCertificate, IsOpen, unscanned};
ghost use Rattle.book_state.specs.Answerable.{IsReadyTheorem};
ghost use Rattle.gl_book.specs.Entry.{verdict_stalls};
ghost use Rattle.gl_book.specs.Lasts.{IsLastOf};
ghost use Rattle.gl_book.specs.Lines.{verdict_lines};
ghost use Rattle.gl.specs.Proving.{EndsProof, IsNotDue, IsSearched, TellsProof, WritesProof, open_status, part_text};
ghost use Rattle.gl_words.specs.declared.proof_part.ProofPart.{ProofPart as PartSeen};

use crate::putting::put_text;
use cnf_rup::ClauseBook;
use gl_base::limits::Limits;
use gl_base::shelf::Shelf;
use gl_base::sink::Sink;
use gl_base::status::Status;
use gl_book::{Last, Transcript, keep_stall, last_theorem, lines_of_verdict, put_told};
use gl_decide::{Room, Verdict, certificate};
use gl_logic::{NoMemory, Texts, World};
use gl_words::{Proof, ProofPart};
use lrat_tool::{cnf_text, log_text};
use sexp_reader::{ReadEnd, read_book};
use shape_spec::{Mode, Thm, bit_count};
use std::alloc::Global;

/// What is written where no proof is due.
const NO_PROOF: &[u8] = b"NOPROOF\n";

/// Reads a book, and writes a text of the proof of its last theorem: where that theorem is decided by a search over one index
/// at least, and is shown without trying its inputs. Where it comes to something else, the lines of that verdict are written,
/// and its stall is put behind the others. Elsewhere one line says that no proof is due.
pub fn run_proof<S: Shelf, K: Sink>(
    alloc: Global,
    proof: &Proof,
    shelf: &mut S,
    out: &mut Transcript<K>,
) -> Status
    requires { S.may_open proof.now.name.now }
    ensures written { result ≢ Status.ReadFault → WritesProof (bounds_of proof.now.limits) proof.now.part (S.holds shelf.old) proof.now.name.now (K.written out.old.sink) (K.written out.new.sink) out.old.stalls out.new.stalls result }
    ensures read_fault { result ≡ Status.ReadFault → Rose (S.faults shelf.old) (S.faults shelf.new) }
    ensures no_read_fault { result ≢ Status.ReadFault → S.faults shelf.new ≡ S.faults shelf.old }
    ensures unwritten { result ≡ Status.ReadFault → K.written out.new.sink ≡ K.written out.old.sink }
    ensures none_added { result ≡ Status.ReadFault → out.new.stalls ≡ out.old.stalls }
    ensures write_fault { result ≡ Status.WriteFault → Rose (K.faults out.old.sink) (K.faults out.new.sink) }
    ensures no_write_fault { result ≢ Status.WriteFault → K.faults out.new.sink ≡ K.faults out.old.sink }
    ensures no_usage { result ≢ Status.Usage }
{
    match read_book(alloc, shelf, proof.name) {
        Ok(text) => prove_text(alloc, &text, proof, out),
        Err(ReadEnd::TooLong(_, _)) => put_no_proof(&mut out.sink),
        Err(ReadEnd::Failed) => Status::ReadFault,
        Err(ReadEnd::Memory) => Status::NoMemory,
    }
}

/// Writes a text of the proof of the last theorem of a book's text.
fn prove_text<K: Sink>(alloc: Global, text: &[u8], proof: &Proof, out: &mut Transcript<K>) -> Status
    ensures written { EndsProof (bounds_of proof.now.limits) proof.now.part text.now (K.written out.old.sink) (K.written out.new.sink) out.old.stalls out.new.stalls result }
    ensures write_fault { result ≡ Status.WriteFault → Rose (K.faults out.old.sink) (K.faults out.new.sink) }
    ensures no_write_fault { result ≢ Status.WriteFault → K.faults out.new.sink ≡ K.faults out.old.sink }
    ensures no_read_fault { result ≢ Status.ReadFault }
    ensures no_usage { result ≢ Status.Usage }
{
    match last_theorem(alloc, text, &proof.limits) {
        Ok(Last::None) => put_no_proof(&mut out.sink),
        Ok(Last::Found(world, thm, texts)) => {
            prove_last(alloc, &world, &thm, &texts, proof, out)
        }
        Err(_) => Status::NoMemory,
    }
}

/// Says that no proof is due.
fn put_no_proof<K: Sink>(out: &mut K) -> Status
    ensures written { (bounds : Bounds) (part : PartSeen) (text : List ℕ) (stalls : List StallSeen) → IsNotDue bounds text → EndsProof bounds part text (K.written out.old) (K.written out.new) stalls stalls result }
    ensures write_fault { result ≡ Status.WriteFault → Rose (K.faults out.old) (K.faults out.new) }
    ensures no_write_fault { result ≢ Status.WriteFault → K.faults out.new ≡ K.faults out.old }
    ensures no_read_fault { result ≢ Status.ReadFault }
    ensures no_usage { result ≢ Status.Usage }
{
    match put_text(NO_PROOF, out) {
        Ok(()) => Status::Undecided,
        Err(_) => Status::WriteFault,
    }
}

/// Whether a theorem is decided by a search, over one index at least.
fn is_searched(thm: &Thm) -> bool
    ensures yes { result ≡ true → IsSearched (theorem_seen thm.now) }
    ensures no { result ≡ false → IsSearched (theorem_seen thm.now) → ⊥ }
{
    thm.mode == Mode::Sat && bit_count(&thm.bindings) > 0
}

/// Writes a text of the proof of a text's last theorem, where one is due.
fn prove_last<K: Sink>(
    alloc: Global,
    world: &World,
    thm: &Thm,
    texts: &Texts,
    proof: &Proof,
    out: &mut Transcript<K>,
) -> Status
    requires { IsReadyTheorem world.now.definitions (theorem_seen thm.now) }
    ensures written { (text : List ℕ) → IsLastOf texts.now (bounds_of proof.now.limits) text world.now (theorem_seen thm.now) → EndsProof (bounds_of proof.now.limits) proof.now.part text (K.written out.old.sink) (K.written out.new.sink) out.old.stalls out.new.stalls result }
    ensures write_fault { result ≡ Status.WriteFault → Rose (K.faults out.old.sink) (K.faults out.new.sink) }
    ensures no_write_fault { result ≢ Status.WriteFault → K.faults out.new.sink ≡ K.faults out.old.sink }
    ensures no_read_fault { result ≢ Status.ReadFault }
    ensures no_usage { result ≢ Status.Usage }
{
    if is_searched(thm) {
        match certified(alloc, world, thm, &proof.limits) {
            Ok(book) => put_part(alloc, &book, proof.part, &mut out.sink),
            Err(verdict) => put_verdict(alloc, thm, verdict, texts, out),
        }
    } else {
        put_no_proof(&mut out.sink)
    }
}

/// The book that shows a theorem, or what it comes to, in a room of its own.
fn certified(
    alloc: Global,
    world: &World,
    thm: &Thm,
    limits: &Limits,
) -> Result<ClauseBook, Verdict>
    requires ready { IsReadyTheorem world.now.definitions (theorem_seen thm.now) }
    requires searched { IsSearched (theorem_seen thm.now) }
    ensures book { IfOk result (IsCertificate world.now (theorem_seen thm.now)) }
    ensures proper { IfErr result (IsProperVerdict world.now (unscanned (bounds_of limits.now)) (theorem_seen thm.now)) }
    ensures not_shown { IfErr result IsOpen }
{
    let mut room = Room::Empty;
    certificate(alloc, world, thm, limits, &mut room)
}

// ---- texts

/// Appends the text of a part.
fn append_part(part: ProofPart, book: &ClauseBook, text: &mut Vec<u8>) -> Result<(), NoMemory>
    requires { IsRefutation book.now }
    ensures { OnOk result (text.new.items ≡ text.old.items ++ part_text part book.now) }
{
    match part {
        ProofPart::Cnf => cnf_text(book, text),
        ProofPart::Log => log_text(book, text),
    }
}

/// Writes the text of a part.
fn put_part<K: Sink>(alloc: Global, book: &ClauseBook, part: ProofPart, out: &mut K) -> Status
    requires { IsRefutation book.now }
    ensures written { (bounds : Bounds) (text : List ℕ) (stalls : List StallSeen) → TellsProof bounds part text (part_text part book.now ∷ []) [] Status.Good → EndsProof bounds part text (K.written out.old) (K.written out.new) stalls stalls result }
    ensures write_fault { result ≡ Status.WriteFault → Rose (K.faults out.old) (K.faults out.new) }
    ensures no_write_fault { result ≢ Status.WriteFault → K.faults out.new ≡ K.faults out.old }
    ensures no_read_fault { result ≢ Status.ReadFault }
    ensures no_usage { result ≢ Status.Usage }
{
    let mut text = Vec::new(alloc);
    let Ok(()) = append_part(part, book, &mut text) else {
        return Status::NoMemory;
    };
    match put_text(&text, out) {
        Ok(()) => Status::Good,
        Err(_) => Status::WriteFault,
    }
}

// ---- verdicts

/// The status of a verdict that is neither proved nor vacuous.
fn status_of(verdict: &Verdict) -> Status
    ensures status { result ≡ open_status verdict.now }
    ensures reported { (result ≡ Status.Refuted) ⊎ (result ≡ Status.Undecided) ⊎ (result ≡ Status.NoMemory) }
{
    match verdict {
        Verdict::Refuted(_) => Status::Refuted,
        Verdict::Memory => Status::NoMemory,
        _ => Status::Undecided,
    }
}

/// Puts the stall of a verdict behind the others, and then writes the verdict's lines, each as a piece of its own.
fn put_verdict<K: Sink>(
    alloc: Global,
    thm: &Thm,
    verdict: Verdict,
    texts: &Texts,
    out: &mut Transcript<K>,
) -> Status
    ensures written { (bounds : Bounds) (part : PartSeen) (text : List ℕ) → TellsProof bounds part text (verdict_lines texts.now thm.now.name.number verdict) (verdict_stalls verdict) (open_status verdict) → EndsProof bounds part text (K.written out.old.sink) (K.written out.new.sink) out.old.stalls out.new.stalls result }
    ensures write_fault { result ≡ Status.WriteFault → Rose (K.faults out.old.sink) (K.faults out.new.sink) }
    ensures no_write_fault { result ≢ Status.WriteFault → K.faults out.new.sink ≡ K.faults out.old.sink }
    ensures no_read_fault { result ≢ Status.ReadFault }
    ensures no_usage { result ≢ Status.Usage }
{
    let status = status_of(&verdict);
    let Ok(lines) = lines_of_verdict(alloc, thm, &verdict, texts) else {
        return Status::NoMemory;
    };
    let Ok(()) = keep_stall(verdict, &mut out.stalls) else {
        return Status::NoMemory;
    };
    match put_told(&lines, false, out) {
        Ok(()) => status,
        Err(_) => Status::WriteFault,
    }
}
