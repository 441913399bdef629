//! What may decide the events that are undecided, tried within a time, and told as it is found out.

ghost use Rattle.explain_report.specs.Put.{IsPut};

use crate::explain::{Book, asker_at};
use crate::manner::Format;
use crate::progress::Doing;
use book_shelf::Item;
use explain_findings::{Asker, Attempts, Replay};
use explain_report::{PutEnd, Record, Report, Verdict};
use gl_base::sink::{Sink, put_all};
use gl_logic::{NoMemory, Texts, Tree};
use std::alloc::Global;
use std::rt::Clock;
use std::thread::Threads;

/// How many rounds an event has at most.
const MOST_ROUNDS: u64 = 1000;

/// Tells what was found out: in text at once, else with what is said of the event.
fn tell<K: Sink>(
    out: &mut K,
    format: Format,
    record: &mut Record,
    report: Report,
) -> Result<(), PutEnd>
    ensures cause { IsPut (K.faults out.old) (K.faults out.new) result }
{
    let bytes = report.into_bytes()?;
    if format == Format::Text {
        put_all(out, &bytes)?;
        out.flush()?;
    } else {
        add(record, &bytes)?;
    }
    Ok(())
}

fn add(record: &mut Record, bytes: &[u8]) -> Result<(), NoMemory> {
    record.message.extend_from_slice(bytes)?;
    Ok(())
}

/// Puts the place of an event that is tried, where text has it, and what is to be tried.
fn put_plan(report: &mut Report, format: Format, record: &Record, attempts: &Attempts) {
    if format == Format::Text && record.line > 0 {
        report.place(
            record.file.as_slice(),
            u64::from(record.line),
            u64::from(record.column),
        );
        report.text(record.name.as_slice());
        report.say(" is tried otherwise\n");
    }
    attempts.put_plan(report);
}

/// Tries what may decide an event, and tells what each trial comes to. The microseconds that are left of its time.
fn try_event<R: Threads + Sync + Clock, K: Sink>(
    asker: &Asker<R>,
    texts: &mut Texts,
    form: &Tree,
    record: &mut Record,
    format: Format,
    out: &mut K,
    given: u64,
) -> Result<u64, PutEnd>
    ensures cause { IsPut (K.faults out.old) (K.faults out.new) result }
{
    let mut attempts = Attempts::new(asker, texts, form, record, given)?;
    if attempts.is_empty() {
        return Ok(given);
    }
    let mut report = Report::new(asker.alloc);
    put_plan(&mut report, format, record, &attempts);
    tell(out, format, record, report)?;
    for _ in 0..MOST_ROUNDS {
        let mut report = Report::new(asker.alloc);
        let goes_on = attempts.put_next(asker, texts, &mut report, form)?;
        tell(out, format, record, report)?;
        if !goes_on {
            break;
        }
    }
    let mut report = Report::new(asker.alloc);
    attempts.put_end(&mut report);
    tell(out, format, record, report)?;
    Ok(attempts.left())
}

/// How many events are undecided.
fn count_undecided(records: &[Record]) -> u64 {
    let mut count: u64 = 0;
    for record in records {
        if record.verdict() == Verdict::Undecided {
            count = count.saturating_add(1);
        }
    }
    count
}

/// Tries what may decide each event that is undecided, each within its share of the time that is left. The events before it are
/// taken in once more.
pub(crate) fn try_all<R: Threads + Sync + Clock, K: Sink>(
    rt: &R,
    alloc: Global,
    book: &Book,
    texts: &mut Texts,
    records: &mut [Record],
    out: &mut K,
) -> Result<(), PutEnd>
    ensures cause { IsPut (K.faults out.old) (K.faults out.new) result }
{
    let format = book.manner.format;
    let Some(seconds) = book.manner.tries else {
        return Ok(());
    };
    let mut count = count_undecided(records);
    let mut left = u64::from(seconds).saturating_mul(1_000_000);
    let mut replay = Replay::new(alloc, texts)?;
    for record in records {
        let item = record.item as u64;
        if record.verdict() == Verdict::Undecided && item < book.library.items.len() {
            let share = left / count.max(1);
            book.progress.turn_to(record.item, Doing::Try);
            let _refused = replay.go_to(rt, alloc, book.library, book.limits, texts, item)?;
            if let (Item::Form(form), Some(asker)) = (
                book.library.items.at(item),
                asker_at(&*rt, alloc, &*book.library, &*book.limits, &replay, item),
            ) {
                let unused = try_event(&asker, texts, &form.tree, record, format, out, share)?;
                left = left.saturating_sub(share.saturating_sub(unused));
            }
            count = count.saturating_sub(1);
        }
    }
    Ok(())
}
