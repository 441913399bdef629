//! A book run and explained.

ghost use Rattle.std.specs.Prelude.{◌≡◌, ◌≢◌, length};
ghost use Rattle.gl_base.specs.Outside.{Rose};
ghost use Rattle.explain_report.specs.Put.{IsPut};
ghost use Rattle.gl_logic.specs.Every.{Every};
ghost use Rattle.book_shelf.specs.NumberedItems.{IsNumberedItem};
ghost use Rattle.book_shelf.specs.Reached.{MayLoad};

use crate::codes::Fault;
use crate::earlier::put_earlier;
use crate::further::{First, put_faults};
use crate::manner::{Format, Manner, Outlet};
use crate::message::{Refusal, Said, put_words, told_without_text};
use crate::naming::NamingShelf;
use crate::places::{Place, Places, places_of};
use crate::progress::{Doing, Progress};
use crate::refusal::{explain_constant, explain_event_fault, explain_text_fault, form_of};
use crate::screen::{Kept, Screen};
use crate::shown::Shown;
use crate::sources::{put_sources, text_of};
use crate::told::{put_messages, put_told};
use crate::trying::try_all;
use book_faults::{Judge, Start, cut};
use book_shelf::{Finish, Item, Library, LoadEnd, ShelfCode, load};
use book_state::State;
use event_world::EventFault;
use explain_findings::{
    Asker, Before, FormFault, Refused, Replay, put_finding, put_modes, widths_of,
};
use explain_report::{Cause, PutEnd, Record, Report, Verdict};
use gl_base::limits::Limits;
use gl_base::shelf::Shelf;
use gl_base::sink::Sink;
use gl_base::status::Status;
use gl_book::run_library;
use gl_decide::Stalls;
use gl_logic::{NoMemory, Texts};
use std::alloc::Global;
use std::rt::Clock;
use std::thread::Threads;

/// How a run ended, and where it was told.
#[derive(Drop)]
pub struct Explained<K: Sink + Drop> {
    pub status: Status,
    pub out: K,
}

/// Runs the book of a name with the books that it includes, and tells each line of its transcript with its event's place, and
/// what is to be said of it: in text as it is decided, and what is to be said behind the transcript. The status is that of the
/// run, and others see by its progress how far it is; WriteFault where what is told could not be written, and NoMemory where memory was refused for it.
pub fn explain_book<R: Threads + Sync + Clock, S: Shelf + Drop, K: Sink + Drop, E: Sink + Drop>(
    rt: &R,
    alloc: Global,
    name: &str,
    limits: &Limits,
    shelf: &mut NamingShelf<S>,
    outlet: Outlet<K, E>,
    progress: &Progress,
) -> Explained<K>
    // It opens no text but the book's own and those that are included from there.
    requires { MayLoad S.may_open (S.holds shelf.old) name.now }
    // In each format the status tells whether a call of the sink failed.
    ensures write_fault { result.status ≡ Status.WriteFault → Rose (K.faults outlet.out) (K.faults result.out) }
    ensures no_write_fault { result.status ≢ Status.WriteFault → result.status ≢ Status.NoMemory → K.faults result.out ≡ K.faults outlet.out }
{
    let Outlet { out, notes, manner } = outlet;
    let Ok(mut texts) = Texts::new(alloc) else {
        return ended(Status::NoMemory, out);
    };
    match load(alloc, shelf, name, &mut texts) {
        Ok(library) => {
            let (Ok(places), Ok(known)) = (
                places_of(alloc, name.as_bytes(), &library, &texts),
                places_of(alloc, name.as_bytes(), &library, &texts),
            ) else {
                return ended(Status::NoMemory, out);
            };
            progress.know(known);
            let shown = Shown {
                out,
                screen: Screen::new(rt, alloc, places, manner, notes, progress),
                stalls: Stalls::new(alloc),
                lacks: 0,
            };
            run_shown(rt, alloc, &library, limits, &mut texts, shelf, shown)
        }
        Err(LoadEnd::Failed) => ended(Status::ReadFault, out),
        Err(LoadEnd::Memory) => ended(Status::NoMemory, out),
    }
}

/// A run that ended with a status.
fn ended<K: Sink + Drop>(status: Status, out: K) -> Explained<K>
    ensures status { result.status ≡ status }
    ensures out { result.out ≡ out }
{
    Explained { status, out }
}

/// Runs a list of books, and then tells what is to be said of it.
fn run_shown<R: Threads + Sync + Clock, S: Shelf + Drop, K: Sink + Drop, E: Sink + Drop>(
    rt: &R,
    alloc: Global,
    library: &Library,
    limits: &Limits,
    texts: &mut Texts,
    shelf: &mut NamingShelf<S>,
    shown: Shown<'_, R, K, E>,
) -> Explained<K>
    requires numbered { Every (IsNumberedItem (length texts.old)) library.now.items }
    requires none { shown.lacks ≡ 0 }
    ensures write_fault { result.status ≡ Status.WriteFault → Rose (K.faults shown.entry.out) (K.faults result.out) }
    ensures no_write_fault { result.status ≢ Status.WriteFault → result.status ≢ Status.NoMemory → K.faults result.out ≡ K.faults shown.entry.out }
{
    let mut shown = shown;
    if shown.screen.name_running().is_err() {
        let Shown { out, .. } = shown;
        return ended(Status::NoMemory, out);
    }
    let status = run_library(rt, alloc, library, texts, limits, &mut shown);
    shown.screen.wipe_running();
    let Shown {
        out,
        screen,
        lacks,
        ..
    } = shown;
    if lacks > 0 {
        return ended(Status::NoMemory, out);
    }
    if status == Status::WriteFault || status == Status::NoMemory {
        return ended(status, out);
    }
    let manner = screen.manner;
    let progress = screen.progress;
    let Kept {
        places,
        mut records,
    } = screen.into_kept();
    let book = Book {
        library,
        places: &places,
        limits,
        manner,
        status,
        progress,
    };
    match say_all(rt, alloc, &book, texts, shelf, &mut records) {
        Ok(()) => tell(rt, alloc, &book, texts, shelf, &mut records, out),
        Err(_) => ended(Status::NoMemory, out),
    }
}

/// Whether something is to be said of a record.
fn asks_for_a_look(records: &[Record]) -> bool {
    for record in records {
        if record.verdict().is_trouble() {
            return true;
        }
    }
    false
}

/// Says of each record what is to be said, with its events taken in once more.
fn say_all<R: Threads + Sync + Clock, S: Shelf + Drop>(
    rt: &R,
    alloc: Global,
    book: &Book,
    texts: &mut Texts,
    shelf: &mut NamingShelf<S>,
    records: &mut [Record],
) -> Result<(), NoMemory> {
    if !asks_for_a_look(records) {
        return Ok(());
    }
    let mut replay = Replay::new(alloc, texts)?;
    say_each(rt, alloc, book, &mut replay, texts, records)?;
    say_refusal(rt, alloc, book, replay, texts, shelf, records)
}

/// Says of the record of a refusal what is to be said.
fn say_refusal<R: Threads + Sync + Clock, S: Shelf + Drop>(
    rt: &R,
    alloc: Global,
    book: &Book,
    replay: Replay,
    texts: &mut Texts,
    shelf: &mut NamingShelf<S>,
    records: &mut [Record],
) -> Result<(), NoMemory> {
    for record in records {
        if record.verdict() == Verdict::Refused {
            return put_refusal_of(rt, alloc, book, replay, texts, shelf, record);
        }
    }
    Ok(())
}

/// Says of each record but a refusal what is to be said, from a state on.
fn say_each<R: Threads + Sync + Clock>(
    rt: &R,
    alloc: Global,
    book: &Book,
    replay: &mut Replay,
    texts: &mut Texts,
    records: &mut [Record],
) -> Result<(), NoMemory> {
    for record in records {
        let verdict = record.verdict();
        if verdict.is_trouble() && verdict != Verdict::Refused {
            put_finding_of(rt, alloc, book, replay, texts, record)?;
        }
    }
    Ok(())
}

/// What asks in the state in front of an item; none where that was not reached.
pub(crate) fn asker_at<'a, R: Threads + Sync>(
    rt: &'a R,
    alloc: Global,
    library: &'a Library,
    limits: &'a Limits,
    replay: &'a Replay,
    item: u64,
) -> Option<Asker<'a, R>> {
    Some(Asker {
        rt,
        alloc,
        state: replay.state_at(item)?,
        limits,
        before: Before { library, item },
    })
}

/// Puts what is found out of a record that asks for a look with it.
fn put_finding_of<R: Threads + Sync + Clock>(
    rt: &R,
    alloc: Global,
    book: &Book,
    replay: &mut Replay,
    texts: &mut Texts,
    record: &mut Record,
) -> Result<(), NoMemory> {
    let item = record.item as u64;
    if item >= book.library.items.len() {
        return Ok(());
    }
    let Item::Form(form) = book.library.items.at(item) else {
        return Ok(());
    };
    book.progress.turn_to(record.item, Doing::Explain);
    let _refused = replay.go_to(rt, alloc, book.library, book.limits, texts, item)?;
    let Some(asker) = asker_at(&*rt, alloc, &*book.library, &*book.limits, &*replay, item) else {
        return Ok(());
    };
    let mut report = Report::new(alloc);
    put_finding(&asker, texts, &mut report, &form.tree, &record.found)?;
    if record.found.cause == Some(Cause::Nodes) {
        put_modes(&asker, texts, &mut report, &form.tree, record.micros)?;
    }
    record.widths = widths_of(alloc, texts, &form.tree, record.inputs())?;
    record.message = report.into_bytes()?;
    Ok(())
}

/// Puts what is said of a book that is refused with its record, by taking the rest of it in once more.
fn put_refusal_of<R: Threads + Sync, S: Shelf + Drop>(
    rt: &R,
    alloc: Global,
    book: &Book,
    mut replay: Replay,
    texts: &mut Texts,
    shelf: &mut NamingShelf<S>,
    record: &mut Record,
) -> Result<(), NoMemory> {
    book.progress.turn_to(record.item, Doing::Explain);
    let end = book.library.items.len();
    let refused = replay.go_to(rt, alloc, book.library, book.limits, texts, end)?;
    let (at, last) = match refused {
        Some(refused) => (place_of(book.places, refused), refused.item),
        None => (finish_of(book.library.finish, book.places.end()), end),
    };
    let Some(at) = at else {
        return Ok(());
    };
    let mut report = Report::new(alloc);
    let event = explain_at(alloc, &mut report, book, &at, replay.state(), texts, shelf)?;
    let first = First {
        book: book.places.book().to_vec(alloc)?,
        file: book.places.file(at.place).to_vec(alloc)?,
        fault: at.fault,
        event,
        said: Said::of(report)?,
    };
    let start = Start {
        state: replay.into_state(),
        taken: forms_before(book.library, last),
    };
    let Said { message, faults } = put_faults(rt, alloc, book.limits, first, start, texts, shelf)?;
    record.faults = faults;
    record.message = message;
    Ok(())
}

/// How many forms stand in front of an item.
fn forms_before(library: &Library, end: u64) -> u64 {
    let mut count: u64 = 0;
    for item in 0..end {
        if item < library.items.len() && matches!(library.items.at(item), Item::Form(_)) {
            count = count.saturating_add(1);
        }
    }
    count
}

/// Tells what is to be told behind a run.
fn tell<R: Threads + Sync + Clock, S: Shelf + Drop, K: Sink + Drop>(
    rt: &R,
    alloc: Global,
    book: &Book,
    texts: &mut Texts,
    shelf: &mut NamingShelf<S>,
    records: &mut [Record],
    out: K,
) -> Explained<K>
    requires written { book.now.status ≢ Status.WriteFault }
    ensures write_fault { result.status ≡ Status.WriteFault → Rose (K.faults out) (K.faults result.out) }
    ensures no_write_fault { result.status ≢ Status.WriteFault → K.faults result.out ≡ K.faults out }
{
    let mut out = out;
    if book.manner.format == Format::Html {
        let Ok(()) = put_sources(alloc, book.places, records, shelf) else {
            return ended(Status::NoMemory, out);
        };
    }
    match put_all_told(rt, alloc, book, texts, records, &mut out) {
        Ok(()) => ended(book.status, out),
        Err(PutEnd::Failed) => ended(Status::WriteFault, out),
        Err(PutEnd::Memory) => ended(Status::NoMemory, out),
    }
}

/// Writes what is said of each line, what trials come to, and what a run comes to.
fn put_all_told<R: Threads + Sync + Clock, K: Sink>(
    rt: &R,
    alloc: Global,
    book: &Book,
    texts: &mut Texts,
    records: &mut [Record],
    out: &mut K,
) -> Result<(), PutEnd>
    ensures cause { IsPut (K.faults out.old) (K.faults out.new) result }
{
    if book.manner.format == Format::Text {
        put_messages(alloc, out, records)?;
    }
    try_all(rt, alloc, book, texts, records, out)?;
    put_told(alloc, out, book.manner, book.places, records)
}

/// A list of books that was run: where its items stand, the limits, how it is told, the status, and who is told how far it is.
#[derive(Clone, Copy)]
pub(crate) struct Book<'a> {
    pub library: &'a Library,
    pub places: &'a Places,
    pub limits: &'a Limits,
    pub manner: Manner,
    pub status: Status,
    pub progress: &'a Progress,
}

/// What is refused of a list of books: where, by which item, and why.
#[derive(Clone, Copy)]
struct RefusedAt {
    place: Place,
    item: u64,
    fault: Fault,
}

/// Why a list of books ends where it does.
fn finish_of(finish: Finish, end: Place) -> Option<RefusedAt> {
    match finish {
        Finish::Clean => None,
        Finish::Refused(line, column, code) => Some(RefusedAt {
            place: Place {
                line,
                column,
                ..end
            },
            item: 0,
            fault: Fault::Shelf(code),
        }),
    }
}

/// The place of a form that is refused.
fn place_of(places: &Places, refused: Refused) -> Option<RefusedAt> {
    let place = places.items.get(refused.item as usize)?;
    Some(RefusedAt {
        place: *place,
        item: refused.item,
        fault: Fault::Form(refused.fault),
    })
}

/// Explains what is refused, with the text in which it stands. The form there.
fn explain_at<S: Shelf + Drop>(
    alloc: Global,
    report: &mut Report,
    book: &Book,
    at: &RefusedAt,
    state: &State,
    texts: &mut Texts,
    shelf: &mut NamingShelf<S>,
) -> Result<Vec<u8>, NoMemory> {
    let file = book.places.file(at.place);
    let Some(text) = text_of(alloc, shelf, file)? else {
        explain_unread(alloc, report, file, at);
        return Ok(Vec::new(alloc));
    };
    let refusal = Refusal {
        file,
        text: &text,
        line: at.place.line,
        column: at.place.column,
        fault: at.fault,
    };
    explain_refusal(alloc, report, book, at.item, &refusal, state, texts)?;
    Ok(cut(&text, form_of(alloc, &refusal)?).to_vec(alloc)?)
}

/// Explains why an item is refused, in the state in front of it.
fn explain_refusal(
    alloc: Global,
    report: &mut Report,
    book: &Book,
    item: u64,
    refusal: &Refusal,
    state: &State,
    texts: &mut Texts,
) -> Result<(), NoMemory> {
    match refusal.fault {
        Fault::Shelf(code) => {
            let is_form = matches!(code, ShelfCode::Cyclic | ShelfCode::Many);
            explain_text_fault(alloc, report, refusal, is_form)
        }
        Fault::Form(FormFault::Constant(_)) => explain_constant(alloc, report, refusal),
        Fault::Form(FormFault::Event(fault)) => {
            let judge = Judge {
                world: state.world(),
                memoized: state.memoized(),
                fault,
            };
            explain_event_fault(alloc, report, refusal, &judge, texts)?;
            if fault == EventFault::Redefined {
                put_earlier(
                    report,
                    book.library,
                    book.places,
                    state.world(),
                    texts,
                    item,
                );
            }
            Ok(())
        }
    }
}

/// Explains what is refused of a text that is too long, or that cannot be read once more.
fn explain_unread(alloc: Global, report: &mut Report, file: &[u8], at: &RefusedAt) {
    report.fault(told_without_text(alloc, file, at.place.line, at.place.column, at.fault));
    report.place(file, at.place.line as u64, at.place.column as u64);
    put_words(report, at.fault);
}
