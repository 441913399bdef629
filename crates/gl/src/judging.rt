//! The judgement on a formula and a log of a shelf, as a line.

ghost use Rattle.std.specs.Prelude.{◌≡◌, ◌≢◌, ◌⊎◌, ◌≤◌, ℕ, take, string_bytes, IfOk, IfErr, IsErrOf};
ghost use Rattle.gl_base.specs.Outside.{Rose, Grows};
ghost use Rattle.gl.specs.Judging.{IsSaid, WritesLine, judged_line, line_status};

use crate::putting::put_text;
use gl_base::shelf::Shelf;
use gl_base::sink::Sink;
use gl_base::status::Status;
use gl_words::Pair;
use lrat_tool::{Judgement, TextEnd, judge, read_text};
use std::alloc::{AllocError, Global};
use std::thread::Threads;

/// The line of a judgement.
fn line_of(alloc: Global, judgement: Judgement) -> Result<String, AllocError>
    ensures { IfOk result (λ s. string_bytes s ≡ judged_line judgement) }
{
    match judgement {
        Judgement::BadCnf(line) => format!(in alloc; "BAD cnf {line}\n"),
        Judgement::BadLog(line) => format!(in alloc; "BAD log {line}\n"),
        Judgement::Rat(line) => format!(in alloc; "RAT {line}\n"),
        Judgement::NotShown(line) => format!(in alloc; "NOT SHOWN {line}\n"),
        Judgement::NoRefutation => "NO REFUTATION\n".to_string(alloc),
        Judgement::Verified => "VERIFIED\n".to_string(alloc),
    }
}

/// The status of a judgement.
fn status_of(judgement: Judgement) -> Status
    ensures { result ≡ line_status judgement }
{
    match judgement {
        Judgement::Verified => Status::Good,
        Judgement::NotShown(_) | Judgement::NoRefutation => Status::Refuted,
        Judgement::BadCnf(_) | Judgement::BadLog(_) => Status::BookRefused,
        Judgement::Rat(_) => Status::Undecided,
    }
}

/// What is said of the texts of two names. The formula is read first. A text that is too long ends the reading.
fn said_of<R: Threads + Sync, S: Shelf>(
    rt: &R,
    alloc: Global,
    pair: &Pair,
    shelf: &mut S,
) -> Result<Judgement, Status>
    requires one { 1 ≤ pair.now.workers }
    requires eight { pair.now.workers ≤ 8 }
    requires cnf { S.may_open pair.now.cnf.now }
    requires log { S.may_open pair.now.log.now }
    ensures said { IfOk result (IsSaid (S.holds shelf.old) pair.now.cnf.now pair.now.log.now) }
    ensures ends { IfErr result (λ s. (s ≡ Status.ReadFault) ⊎ (s ≡ Status.NoMemory)) }
    ensures read_fault { IsErrOf result Status.ReadFault → Rose (S.faults shelf.old) (S.faults shelf.new) }
    ensures no_read_fault { result ≢ Err Status.ReadFault → S.faults shelf.new ≡ S.faults shelf.old }
{
    let cnf = match read_text(alloc, shelf, pair.cnf) {
        Ok(bytes) => bytes,
        Err(TextEnd::TooLong(line)) => return Ok(Judgement::BadCnf(line)),
        Err(TextEnd::Failed) => return Err(Status::ReadFault),
        Err(TextEnd::Memory) => return Err(Status::NoMemory),
    };
    let log = match read_text(alloc, shelf, pair.log) {
        Ok(bytes) => bytes,
        Err(TextEnd::TooLong(line)) => return Ok(Judgement::BadLog(line)),
        Err(TextEnd::Failed) => return Err(Status::ReadFault),
        Err(TextEnd::Memory) => return Err(Status::NoMemory),
    };
    match judge(rt, alloc, &cnf, &log, pair.workers) {
        Ok(judgement) => Ok(judgement),
        Err(_) => Err(Status::NoMemory),
    }
}

/// Writes the line of a judgement.
fn put_judgement<K: Sink>(alloc: Global, judgement: Judgement, out: &mut K) -> Status
    ensures answer { (result ≡ line_status judgement) ⊎ (result ≡ Status.WriteFault) ⊎ (result ≡ Status.NoMemory) }
    ensures line { result ≡ line_status judgement → Grows (K.written out.old) (K.written out.new) (judged_line judgement) }
    ensures front { result ≡ Status.WriteFault → (n : ℕ) × Grows (K.written out.old) (K.written out.new) (take n (judged_line judgement)) }
    ensures memory { result ≡ Status.NoMemory → K.written out.new ≡ K.written out.old }
    ensures write_fault { result ≡ Status.WriteFault → Rose (K.faults out.old) (K.faults out.new) }
    ensures no_write_fault { result ≢ Status.WriteFault → K.faults out.new ≡ K.faults out.old }
{
    let Ok(line) = line_of(alloc, judgement) else {
        return Status::NoMemory;
    };
    match put_text(line.as_bytes(), out) {
        Ok(()) => status_of(judgement),
        Err(_) => Status::WriteFault,
    }
}

/// Reads a formula and a log, and writes the judgement on them.
pub fn run_judgement<R: Threads + Sync, S: Shelf, K: Sink>(
    rt: &R,
    alloc: Global,
    pair: &Pair,
    shelf: &mut S,
    out: &mut K,
) -> Status
    requires one { 1 ≤ pair.now.workers }
    requires eight { pair.now.workers ≤ 8 }
    requires cnf { S.may_open pair.now.cnf.now }
    requires log { S.may_open pair.now.log.now }
    ensures written { result ≢ Status.ReadFault → WritesLine (S.holds shelf.old) pair.now.cnf.now pair.now.log.now (K.written out.old) (K.written out.new) result }
    ensures read_fault { result ≡ Status.ReadFault → Rose (S.faults shelf.old) (S.faults shelf.new) }
    ensures no_read_fault { result ≢ Status.ReadFault → S.faults shelf.new ≡ S.faults shelf.old }
    ensures unwritten { result ≡ Status.ReadFault → K.written out.new ≡ K.written out.old }
    ensures write_fault { result ≡ Status.WriteFault → Rose (K.faults out.old) (K.faults out.new) }
    ensures no_write_fault { result ≢ Status.WriteFault → K.faults out.new ≡ K.faults out.old }
    ensures no_usage { result ≢ Status.Usage }
{
    match said_of(rt, alloc, pair, shelf) {
        Ok(judgement) => put_judgement(alloc, judgement, out),
        Err(status) => status,
    }
}
