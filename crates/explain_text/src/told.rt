//! What is told when a run has ended, in its format: what each event's message says, the objects of JSON, the page of HTML.

ghost use Rattle.explain_report.specs.Put.{IsPut};

use crate::manner::{Format, Manner};
use crate::places::Places;
use explain_report::{PutEnd, Record, Report, Verdict, put_object, put_page, put_summary};
use gl_base::sink::{Sink, put_all};
use std::alloc::Global;

/// Puts what is said of a line, behind its event's place. Of a refusal it has its own.
fn put_message(report: &mut Report, record: &Record) {
    if record.message.as_slice().is_empty() {
        return;
    }
    if record.line > 0 && record.verdict() != Verdict::Refused {
        report.place(
            record.file.as_slice(),
            record.line as u64,
            record.column as u64,
        );
    }
    report.text(record.message.as_slice());
}

/// Writes what is said of the lines.
pub(crate) fn put_messages<K: Sink>(
    alloc: Global,
    out: &mut K,
    records: &[Record],
) -> Result<(), PutEnd>
    ensures cause { IsPut (K.faults out.old) (K.faults out.new) result }
{
    let mut report = Report::new(alloc);
    for record in records {
        put_message(&mut report, record);
    }
    put_all(out, &report.into_bytes()?)?;
    out.flush()?;
    Ok(())
}

/// Writes what a run comes to, where that is told.
fn put_end<K: Sink>(
    alloc: Global,
    out: &mut K,
    records: &[Record],
    has_summary: bool,
) -> Result<(), PutEnd>
    ensures cause { IsPut (K.faults out.old) (K.faults out.new) result }
{
    let mut report = Report::new(alloc);
    if has_summary {
        put_summary(alloc, &mut report, records);
    }
    put_all(out, &report.into_bytes()?)?;
    Ok(())
}

fn put_objects<K: Sink>(alloc: Global, out: &mut K, records: &[Record]) -> Result<(), PutEnd>
    ensures cause { IsPut (K.faults out.old) (K.faults out.new) result }
{
    for record in records {
        put_object(alloc, out, record)?;
    }
    Ok(())
}

/// The name of the book that is run.
fn title_of(places: &Places) -> &[u8] {
    match places.files.first() {
        Some(name) => name.as_slice(),
        None => &[],
    }
}

/// Writes what is told behind a run: in text behind what is said of the lines.
pub(crate) fn put_told<K: Sink>(
    alloc: Global,
    out: &mut K,
    manner: Manner,
    places: &Places,
    records: &[Record],
) -> Result<(), PutEnd>
    ensures cause { IsPut (K.faults out.old) (K.faults out.new) result }
{
    match manner.format {
        Format::Text => put_end(alloc, out, records, manner.seconds)?,
        Format::Json => put_objects(alloc, out, records)?,
        Format::Html => put_page(alloc, out, title_of(places), records)?,
    }
    out.flush()?;
    Ok(())
}
