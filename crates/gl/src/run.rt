//! The whole program, over any shelf and any sink.

ghost use Rattle.std.specs.Prelude.{◌≡◌, ◌≢◌, ◌⊎◌, ◌≤◌, ℕ, List, [], Some, true, map, string_bytes, IsNone, IfNone, IfSome};
ghost use Rattle.gl_base.specs.Outside.{Rose, Grows, GrowsByFront};
ghost use Rattle.gl_decide.specs.Bounds.{bounds_of};
ghost use Rattle.gl_book.specs.Transcript.{EndsWith};
ghost use Rattle.gl_book.specs.Generated.{generated};
ghost use Rattle.gl_words.specs.Usage.{usage_line};
ghost use Rattle.gl_words.specs.Words.{order_of};
ghost use Rattle.gl_words.specs.CommandOf.{order_seen, source_seen, IsFew, IsWithin};
ghost use Rattle.gl.specs.Runs.{HasRun, IsOfSource, IsUnread, MayRun, WritesFrom, WritesOrder};
ghost use Rattle.gl.specs.Proving.{WritesProof};

use crate::judging::run_judgement;
use crate::proving::run_proof;
use command_line::WriterSink;
use gl_base::limits::Limits;
use gl_base::shelf::Shelf;
use gl_base::sink::Sink;
use gl_base::status::Status;
use gl_book::{Transcript, generate, run_book, run_text};
use gl_decide::Stalls;
use gl_words::{Command, Order, Source, order_named, refuse_words};
use std::alloc::Global;
use std::io::Write;
use std::thread::Threads;

/// Does what the words ask for: reads the book and the books that it includes from the shelf, and then writes its transcript
/// to the sink, each event's lines before the next form is looked at. With `--generate` the book is the generator's text, and
/// the last line alone of its transcript is written. With `--proof` it reads the book alone, and writes a text of the proof of
/// its last theorem. Behind `lrat` it reads a formula and a log from the shelf, and writes the line of the judgement on them.
///
/// Each line of the causes nodes and clauses adds its stall to those of `out`: what only a decision that ran out hands out.
///
/// `words` are those behind the program's name.
pub fn run<R: Threads + Sync, S: Shelf, K: Sink>(
    rt: &R,
    alloc: Global,
    words: &[String],
    shelf: &mut S,
    out: &mut Transcript<K>,
) -> Status
    // It opens no text but those that the words are about: the book's own and those that are included from there, the book's
    // own alone for a proof, the two texts of a judgement.
    requires { MayRun S.may_open (S.holds shelf.old) (order_of (map string_bytes words.now)) }

    // The words ask for nothing.
    ensures usage { result ≡ Status.Usage → IsNone (order_of (map string_bytes words.now)) }
    ensures no_command { IfNone (order_of (map string_bytes words.now)) ((result ≡ Status.Usage) ⊎ (result ≡ Status.WriteFault) ⊎ (result ≡ Status.NoMemory)) }
    ensures usage_line { result ≡ Status.Usage → Grows (K.written out.old.sink) (K.written out.new.sink) usage_line }
    ensures usage_front { IfNone (order_of (map string_bytes words.now)) (result ≡ Status.WriteFault → GrowsByFront (K.written out.old.sink) (K.written out.new.sink) usage_line) }
    ensures usage_memory { IfNone (order_of (map string_bytes words.now)) (result ≡ Status.NoMemory → out.new ≡ out.old) }
    ensures unread { IfNone (order_of (map string_bytes words.now)) (shelf.new ≡ shelf.old) }
    ensures unstalled { IfNone (order_of (map string_bytes words.now)) (out.new.stalls ≡ out.old.stalls) }

    // The words ask for something. For a transcript: what was written is that of the command with this status and the command's
    // limits, or with `--generate` the last line of it. Its stalls were added, one for each line of the causes nodes and clauses,
    // in order. For a text of a proof: what is told of the last theorem of the book of this name, by one walk over its bytes, with
    // this status and its stalls. For a judgement: its line, with this status and no stall. Where a write failed or memory was
    // refused, a front of that was written. Where the shelf does not tell a text's bytes, it is so for some bytes.
    ensures written { IfSome (order_of (map string_bytes words.now)) (λ order. result ≢ Status.ReadFault → WritesOrder order (S.holds shelf.old) (K.written out.old.sink) (K.written out.new.sink) out.old.stalls out.new.stalls result) }

    // Why the run failed: with status 4, a text that was asked for could not be opened or read.
    ensures read_fault { result ≡ Status.ReadFault → IsUnread (order_of (map string_bytes words.now)) (S.holds shelf.old) (S.faults shelf.old) (S.faults shelf.new) }
    ensures no_read_fault { result ≢ Status.ReadFault → S.faults shelf.new ≡ S.faults shelf.old }
    ensures unwritten { result ≡ Status.ReadFault → K.written out.new.sink ≡ K.written out.old.sink }
    ensures none_added { result ≡ Status.ReadFault → out.new.stalls ≡ out.old.stalls }
    ensures write_fault { result ≡ Status.WriteFault → Rose (K.faults out.old.sink) (K.faults out.new.sink) }
    ensures no_write_fault { result ≢ Status.WriteFault → K.faults out.new.sink ≡ K.faults out.old.sink }
{
    match order_named(alloc, words) {
        Ok(Some(order)) => run_order(rt, alloc, &order, shelf, out),
        Ok(None) => refuse_words(&mut out.sink),
        Err(_) => Status::NoMemory,
    }
}

/// What a run leaves: its status, the writer, and the stalls.
#[derive(Drop)]
pub struct Ran<W: Write + Drop> {
    pub status: Status,
    pub writer: W,
    pub stalls: Stalls,
}

/// `run` to a writer, which is handed back: what is said of a sink's bytes is said of the writer's own contents, where the writer
/// tells them.
pub fn run_to<R: Threads + Sync, S: Shelf, W: Write + Drop>(
    rt: &R,
    alloc: Global,
    words: &[String],
    shelf: &mut S,
    writer: W,
) -> Ran<W>
    // It opens no text but those that the words are about.
    requires { MayRun S.may_open (S.holds shelf.old) (order_of (map string_bytes words.now)) }
    ensures headline { HasRun (order_of (map string_bytes words.now)) (S.holds shelf.old) (W.contents writer) (W.contents result.writer) [] result.stalls result.status }
    ensures unread { IfNone (order_of (map string_bytes words.now)) (shelf.new ≡ shelf.old) }
    ensures read_fault { result.status ≡ Status.ReadFault → IsUnread (order_of (map string_bytes words.now)) (S.holds shelf.old) (S.faults shelf.old) (S.faults shelf.new) }
    ensures no_read_fault { result.status ≢ Status.ReadFault → S.faults shelf.new ≡ S.faults shelf.old }
{
    let mut out = Transcript {
        sink: WriterSink::new(writer),
        stalls: Stalls::new(alloc),
    };
    let status = run(rt, alloc, words, shelf, &mut out);
    let Transcript { sink, stalls } = out;
    Ran {
        status,
        writer: sink.into_writer(),
        stalls,
    }
}

/// Does what words ask for.
fn run_order<R: Threads + Sync, S: Shelf, K: Sink>(
    rt: &R,
    alloc: Global,
    order: &Order,
    shelf: &mut S,
    out: &mut Transcript<K>,
) -> Status
    requires within { IsWithin order.now }
    requires may { MayRun S.may_open (S.holds shelf.old) (Some (order_seen order.now)) }
    ensures written { result ≢ Status.ReadFault → WritesOrder (order_seen order.now) (S.holds shelf.old) (K.written out.old.sink) (K.written out.new.sink) out.old.stalls out.new.stalls result }
    ensures read_fault { result ≡ Status.ReadFault → IsUnread (Some (order_seen order.now)) (S.holds shelf.old) (S.faults shelf.old) (S.faults shelf.new) }
    ensures no_read_fault { result ≢ Status.ReadFault → S.faults shelf.new ≡ S.faults shelf.old }
    ensures unwritten { result ≡ Status.ReadFault → K.written out.new.sink ≡ K.written out.old.sink }
    ensures none_added { result ≡ Status.ReadFault → out.new.stalls ≡ out.old.stalls }
    ensures write_fault { result ≡ Status.WriteFault → Rose (K.faults out.old.sink) (K.faults out.new.sink) }
    ensures no_write_fault { result ≢ Status.WriteFault → K.faults out.new.sink ≡ K.faults out.old.sink }
    ensures no_usage { result ≢ Status.Usage }
{
    match order {
        Order::Transcript(command) => run_command(rt, alloc, command, shelf, out),
        Order::Proof(proof) => run_proof(alloc, proof, shelf, out),
        Order::Judge(pair) => run_judgement(rt, alloc, pair, shelf, &mut out.sink),
    }
}

/// Runs a command.
fn run_command<R: Threads + Sync, S: Shelf, K: Sink>(
    rt: &R,
    alloc: Global,
    command: &Command,
    shelf: &mut S,
    out: &mut Transcript<K>,
) -> Status
    requires few { IsFew command.now.source }
    requires may { (other : List ℕ) → IsOfSource (source_seen command.now.source) (S.holds shelf.old) other → S.may_open other }
    ensures written { result ≢ Status.ReadFault → WritesFrom (source_seen command.now.source) (bounds_of command.now.limits) (S.holds shelf.old) (K.written out.old.sink) (K.written out.new.sink) out.old.stalls out.new.stalls result }
    ensures read_fault { result ≡ Status.ReadFault → Rose (S.faults shelf.old) (S.faults shelf.new) }
    ensures asked { result ≡ Status.ReadFault → (name : List ℕ) × IsOfSource (source_seen command.now.source) (S.holds shelf.old) name }
    ensures no_read_fault { result ≢ Status.ReadFault → S.faults shelf.new ≡ S.faults shelf.old }
    ensures unwritten { result ≡ Status.ReadFault → K.written out.new.sink ≡ K.written out.old.sink }
    ensures none_added { result ≡ Status.ReadFault → out.new.stalls ≡ out.old.stalls }
    ensures write_fault { result ≡ Status.WriteFault → Rose (K.faults out.old.sink) (K.faults out.new.sink) }
    ensures no_write_fault { result ≢ Status.WriteFault → K.faults out.new.sink ≡ K.faults out.old.sink }
    ensures no_usage { result ≢ Status.Usage }
{
    match command.source {
        Source::Book(name) => run_book(rt, alloc, name, &command.limits, shelf, out),
        Source::Generated(n) => run_generated(rt, alloc, n, &command.limits, out),
    }
}

/// Runs the book of `n` theorems, and writes the last line of its transcript.
fn run_generated<R: Threads + Sync, K: Sink>(
    rt: &R,
    alloc: Global,
    n: u32,
    limits: &Limits,
    out: &mut Transcript<K>,
) -> Status
    requires { n ≤ 10000 }
    ensures written { EndsWith (bounds_of limits.now) (generated n) true (K.written out.old.sink) (K.written out.new.sink) out.old.stalls out.new.stalls result }
    ensures write_fault { result ≡ Status.WriteFault → Rose (K.faults out.old.sink) (K.faults out.new.sink) }
    ensures no_write_fault { result ≢ Status.WriteFault → K.faults out.new.sink ≡ K.faults out.old.sink }
    ensures no_read_fault { result ≢ Status.ReadFault }
    ensures no_usage { result ≢ Status.Usage }
{
    match generate(alloc, n) {
        Ok(text) => run_text(rt, alloc, &text, limits, true, out),
        Err(_) => Status::NoMemory,
    }
}
