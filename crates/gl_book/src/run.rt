//! From a text, a list or a shelf to an observer.

ghost use Rattle.std.specs.Prelude.{◌≡◌, ◌≢◌, ◌≤◌, ℕ, List, length, IfOk};
ghost use Rattle.gl_base.specs.Outside.{Rose};
ghost use Rattle.gl_base.specs.declared.status.Status.{Status as StatusSeen};
ghost use Rattle.sexp_reader.specs.Book.{IsBeyond};
ghost use Rattle.gl_decide.specs.Bounds.{Bounds, bounds_of};
ghost use Rattle.gl_decide.specs.Stalls.{StallSeen};
ghost use Rattle.gl_logic.specs.Every.{Every};
ghost use Rattle.gl_logic.specs.Names.{Extends};
ghost use Rattle.book_shelf.specs.NumberedItems.{IsNumberedItem};
ghost use Rattle.book_shelf.specs.Reached.{MayLoad};
ghost use Rattle.gl_book.specs.Openings.{HasBegun};
ghost use Rattle.gl_book.specs.Transcript.{IsTranscript, IsListTranscript, EndsWith, EndsWithList, WritesBook};
ghost use Rattle.book_shelf.specs.Flat.{most_bytes};
ghost use Rattle.gl_book.specs.Stops.{EndsReported, status_from, IsCounted, IsReported};

use super::counts::Counts;
use super::observer::Observer;
use super::one_run::Run;
use super::opening::{Begun, Opened, begin, open};
use super::refusal::{Refusal, RefusalCode};
use super::stop::Stop;
use super::walk::{close, walk};
use book_shelf::{Library, LoadEnd, load};
use book_state::State;
use gl_base::limits::Limits;
use gl_base::shelf::Shelf;
use gl_base::status::Status;
use gl_decide::{Gate, OpenGate};
use gl_logic::Texts;
use sexp_reader::too_long;
use std::alloc::Global;
use std::thread::Threads;

/// Writes the transcript of a text, or its last line alone, and answers the status that it gives.
///
/// With one worker the lines of an event are written before the next form is looked at. With more, the values, asserts and
/// theorems between two events that change definitions or constants are answered together, each in the world and for the
/// functions of its own place, and their lines are written in the order of the book.
///
/// `out` is told each answer as it is decided, and then its lines. Each theorem that is left undecided for want of nodes or
/// clauses adds its stall to those of `out`.
///
/// WriteFault where a write or the flush failed; a front of the transcript was then taken. NoMemory where
/// memory was refused outside a value or a theorem; what was written is then a front of a transcript. In both cases a
/// front of its stalls was added.
pub fn run_text<R: Threads + Sync, O: Observer>(
    rt: &R,
    alloc: Global,
    text: &[u8],
    limits: &Limits,
    last_only: bool,
    out: &mut O,
) -> Status
    ensures written { EndsWith (bounds_of limits.now) text.now last_only (O.written out.old) (O.written out.new) (O.stalls out.old) (O.stalls out.new) result }
    ensures write_fault { result ≡ Status.WriteFault → Rose (O.faults out.old) (O.faults out.new) }
    ensures no_write_fault { result ≢ Status.WriteFault → O.faults out.new ≡ O.faults out.old }
    ensures no_read_fault { result ≢ Status.ReadFault }
    ensures no_usage { result ≢ Status.Usage }
{
    let run = Run {
        rt,
        alloc,
        limits,
        last_only,
        gate: &OpenGate,
    };
    run_text_gated(&run, text, out)
}

/// Does what [`run_text`] does, and calls the gate of the run.
pub fn run_text_gated<R: Threads + Sync, O: Observer, G: Gate>(
    run: &Run<'_, R, G>,
    text: &[u8],
    out: &mut O,
) -> Status
    ensures written { EndsWith (bounds_of run.now.limits.now) text.now run.now.last_only (O.written out.old) (O.written out.new) (O.stalls out.old) (O.stalls out.new) result }
    ensures write_fault { result ≡ Status.WriteFault → Rose (O.faults out.old) (O.faults out.new) }
    ensures no_write_fault { result ≢ Status.WriteFault → O.faults out.new ≡ O.faults out.old }
    ensures no_read_fault { result ≢ Status.ReadFault }
    ensures no_usage { result ≢ Status.Usage }
{
    if let Some((line, column)) = too_long(text) {
        return refuse_long(run.alloc, line, column, run.last_only, out);
    }
    status_of_run(write_text(run, text, out))
}

/// Writes the transcript of the list of a book and of the books that it includes, and answers the status that it gives. A
/// `REFUSED` line has the place in the text of the last `BOOK` line without its `END`, or of the first book.
///
/// The table has the texts of the list. It gains those of the ground definitions, and the empty one.
///
/// What is written, answered and kept with a write that fails or memory that is refused is as with [`run_text`].
pub fn run_library<R: Threads + Sync, O: Observer>(
    rt: &R,
    alloc: Global,
    library: &Library,
    texts: &mut Texts,
    limits: &Limits,
    out: &mut O,
) -> Status
    requires numbered { Every (IsNumberedItem (length texts.old)) library.now.items }
    ensures written { EndsWithList (bounds_of limits.now) texts.old library.now.items library.now.finish
        (O.written out.old) (O.written out.new) (O.stalls out.old) (O.stalls out.new) result }
    ensures texts { Extends texts.old texts.new }
    ensures write_fault { result ≡ Status.WriteFault → Rose (O.faults out.old) (O.faults out.new) }
    ensures no_write_fault { result ≢ Status.WriteFault → O.faults out.new ≡ O.faults out.old }
    ensures no_read_fault { result ≢ Status.ReadFault }
    ensures no_usage { result ≢ Status.Usage }
{
    let Ok(state) = State::new(alloc, texts) else {
        return Status::NoMemory;
    };
    let run = Run {
        rt,
        alloc,
        limits,
        last_only: false,
        gate: &OpenGate,
    };
    status_of_run(write_list(&run, library, state, texts, out))
}

/// Reads the book of a name and the books that it includes, and then writes the transcript.
///
/// ReadFault where a call of the shelf failed; that was then the last one, nothing was written, and no stall was added.
/// A text of more than 4,194,304 bytes is refused at the first of the others, and none of its events is processed.
pub fn run_book<R: Threads + Sync, S: Shelf, O: Observer>(
    rt: &R,
    alloc: Global,
    name: &str,
    limits: &Limits,
    shelf: &mut S,
    out: &mut O,
) -> Status
    // It opens no text but the book's own and those that are included from there.
    requires { MayLoad S.may_open (S.holds shelf.old) name.now }
    ensures written { result ≢ Status.ReadFault → WritesBook (bounds_of limits.now) (S.holds shelf.old) name.now
        (O.written out.old) (O.written out.new) (O.stalls out.old) (O.stalls out.new) result }
    ensures read_fault { result ≡ Status.ReadFault → Rose (S.faults shelf.old) (S.faults shelf.new) }
    ensures no_read_fault { result ≢ Status.ReadFault → S.faults shelf.new ≡ S.faults shelf.old }
    ensures unwritten { result ≡ Status.ReadFault → O.written out.new ≡ O.written out.old }
    ensures unstalled { result ≡ Status.ReadFault → O.stalls out.new ≡ O.stalls out.old }
    ensures write_fault { result ≡ Status.WriteFault → Rose (O.faults out.old) (O.faults out.new) }
    ensures no_write_fault { result ≢ Status.WriteFault → O.faults out.new ≡ O.faults out.old }
    ensures no_usage { result ≢ Status.Usage }
{
    let Ok(Begun { mut texts, state }) = begin(alloc) else {
        return Status::NoMemory;
    };
    match load(alloc, shelf, name, &mut texts) {
        Ok(library) => {
            let run = Run {
                rt,
                alloc,
                limits,
                last_only: false,
                gate: &OpenGate,
            };
            let written = write_list(&run, &library, state, &mut texts, out);
            drop(library);
            drop(texts);
            status_of_run(written)
        }
        Err(fault) => {
            drop(state);
            drop(texts);
            match fault {
                LoadEnd::Failed => Status::ReadFault,
                LoadEnd::Memory => Status::NoMemory,
            }
        }
    }
}

/// The status of a run.
fn status_of_run(run: Result<Status, Stop>) -> Status
    requires { IfOk run IsReported }
    ensures status { result ≡ status_from run }
    ensures write_fault { (before now : ℕ) → IsCounted before now run → result ≡ Status.WriteFault → Rose before now }
    ensures no_write_fault { (before now : ℕ) → IsCounted before now run → result ≢ Status.WriteFault → now ≡ before }
    ensures no_read_fault { result ≢ Status.ReadFault }
    ensures no_usage { result ≢ Status.Usage }
{
    match run {
        Ok(status) => status,
        Err(Stop::Write) => Status::WriteFault,
        Err(Stop::Memory) => Status::NoMemory,
    }
}

/// Reads a text's forms and walks over them.
fn write_text<R: Threads + Sync, O: Observer, G: Gate>(
    run: &Run<'_, R, G>,
    text: &[u8],
    out: &mut O,
) -> Result<Status, Stop>
    requires { length text.now ≤ most_bytes }
    ensures written { EndsReported (IsTranscript (bounds_of run.now.limits.now) text.now) run.now.last_only
        (O.written out.old) (O.written out.new) (O.stalls out.old) (O.stalls out.new) result }
    ensures cause { IsCounted (O.faults out.old) (O.faults out.new) result }
{
    let Ok(
        Opened {
            mut texts,
            state,
            forms,
        },
    ) = open(run.alloc, text)
    else {
        return Err(Stop::Memory);
    };
    let Ok(book) = Library::alone(run.alloc, forms) else {
        drop(texts);
        drop(state);
        return Err(Stop::Memory);
    };
    let written = walk(run, &book, state, &mut texts, out);
    drop(book);
    drop(texts);
    written
}

/// Walks over a list from the first state of a book on.
fn write_list<R: Threads + Sync, O: Observer, G: Gate>(
    run: &Run<'_, R, G>,
    library: &Library,
    state: State,
    texts: &mut Texts,
    out: &mut O,
) -> Result<Status, Stop>
    requires numbered { Every (IsNumberedItem (length texts.old)) library.now.items }
    requires begun { HasBegun texts.old state }
    ensures written { EndsReported (IsListTranscript (bounds_of run.now.limits.now) texts.old library.now.items library.now.finish)
        run.now.last_only (O.written out.old) (O.written out.new) (O.stalls out.old) (O.stalls out.new) result }
    ensures texts { texts.new ≡ texts.old }
    ensures cause { IsCounted (O.faults out.old) (O.faults out.new) result }
{
    // the texts of a table are different, so one text has one number
    texts.is_table();
    walk(run, library, state, texts, out)
}

/// Writes the transcript of a text that is too long at a place.
fn refuse_long<O: Observer>(
    alloc: Global,
    line: u32,
    column: u32,
    last_only: bool,
    out: &mut O,
) -> Status
    ensures written { (bounds : Bounds) (text : List ℕ) → IsBeyond most_bytes text line column
        → EndsWith bounds text last_only (O.written out.old) (O.written out.new) (O.stalls out.old) (O.stalls out.new) result }
    ensures write_fault { result ≡ Status.WriteFault → Rose (O.faults out.old) (O.faults out.new) }
    ensures no_write_fault { result ≢ Status.WriteFault → O.faults out.new ≡ O.faults out.old }
    ensures no_read_fault { result ≢ Status.ReadFault }
    ensures no_usage { result ≢ Status.Usage }
{
    let refusal = Refusal {
        line,
        column,
        code: RefusalCode::TooLong,
    };
    status_of_run(close(alloc, Some(refusal), Counts::none(), last_only, out))
}

/// A law: each text has a transcript.
pub fn every_text_has_a_transcript()
    ensures { (bounds : Bounds) (text : List ℕ)
        → (lines : List (List ℕ)) × (stalls : List StallSeen) × (s : StatusSeen) × IsTranscript bounds text lines stalls s }
{}
