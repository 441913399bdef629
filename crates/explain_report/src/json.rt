//! A line of a transcript as an object of JSON, on a line of its own.

ghost use Rattle.explain_report.specs.Put.{IsPut};

use crate::fault::Fault;
use crate::record::{Input, Record};
use crate::report::Report;
use crate::shown::{PutEnd, Style, put_line};
use gl_base::sink::{Sink, put_all};
use gl_logic::NoMemory;
use std::alloc::Global;

/// How a text stands in JSON.
fn style_of(text: &[u8]) -> Style {
    Style::Json(str::from_utf8(text).is_ok())
}

/// Puts a text as a string of JSON.
fn put_text(report: &mut Report, text: &[u8]) {
    report.say("\"");
    report.shown(style_of(text), text);
    report.say("\"");
}

/// Puts the name of a further member.
fn put_name(report: &mut Report, name: &str) {
    report.say(",\"");
    report.say(name);
    report.say("\":");
}

/// A member with a text; null where it is empty.
fn put_text_of(report: &mut Report, name: &str, text: &[u8]) {
    put_name(report, name);
    if text.is_empty() {
        report.say("null");
    } else {
        put_text(report, text);
    }
}

/// A member with a number; null where it is 0.
fn put_number_of(report: &mut Report, name: &str, number: u32) {
    put_name(report, name);
    if number == 0 {
        report.say("null");
    } else {
        report.number(number as u64);
    }
}

fn put_input(report: &mut Report, input: &Input) {
    report.say("{\"variable\":");
    put_text(report, input.name.as_slice());
    report.say(",\"object\":");
    put_text(report, input.text.as_slice());
    report.say("}");
}

fn put_inputs(report: &mut Report, inputs: &[Input]) {
    put_name(report, "inputs");
    report.say("[");
    for (i, input) in inputs.iter().enumerate() {
        if i > 0 {
            report.say(",");
        }
        put_input(report, input);
    }
    report.say("]");
}

fn put_place_of(report: &mut Report, fault: &Fault) {
    put_name(report, "line");
    report.number(fault.start.line);
    put_name(report, "column");
    report.number(fault.start.column);
    put_name(report, "end_line");
    report.number(fault.end.line);
    put_name(report, "end_column");
    report.number(fault.end.column);
}

fn put_fault(report: &mut Report, fault: &Fault) {
    report.say("{\"code\":");
    put_text(report, fault.code.as_bytes());
    put_text_of(report, "file", fault.file.as_slice());
    put_place_of(report, fault);
    put_text_of(report, "words", fault.words.as_slice());
    report.say("}");
}

fn put_faults(report: &mut Report, faults: &[Fault]) {
    put_name(report, "faults");
    report.say("[");
    for (i, fault) in faults.iter().enumerate() {
        if i > 0 {
            report.say(",");
        }
        put_fault(report, fault);
    }
    report.say("]");
}

/// What stands behind the text of a record.
fn members_behind(alloc: Global, record: &Record) -> Result<Vec<u8>, NoMemory> {
    let mut report = Report::new(alloc);
    report.say("\"");
    put_text_of(&mut report, "kind", record.kind.as_slice());
    put_text_of(&mut report, "name", record.name.as_slice());
    put_text_of(&mut report, "file", record.file.as_slice());
    put_number_of(&mut report, "line", record.line);
    put_number_of(&mut report, "column", record.column);
    put_text_of(&mut report, "verdict", record.verdict().word().as_bytes());
    put_text_of(&mut report, "cause", record.found.words.as_slice());
    put_inputs(&mut report, record.inputs());
    put_name(&mut report, "seconds");
    report.seconds(record.micros);
    put_faults(&mut report, record.faults.as_slice());
    put_text_of(&mut report, "message", record.message.as_slice());
    report.say("}\n");
    report.into_bytes()
}

/// Writes the object of a record.
pub fn put_object<K: Sink>(alloc: Global, out: &mut K, record: &Record) -> Result<(), PutEnd>
    ensures cause { IsPut (K.faults out.old) (K.faults out.new) result }
{
    let rest = members_behind(alloc, record)?;
    let text = record.text.as_slice();
    put_line(alloc, out, style_of(text), b"{\"text\":\"", text, &rest)
}

/// Writes an object that tells with which status a run ends, and why, in words and the name of a text behind them.
pub fn put_status<K: Sink>(
    alloc: Global,
    out: &mut K,
    status: u8,
    words: &str,
    name: &str,
) -> Result<(), PutEnd>
    ensures cause { IsPut (K.faults out.old) (K.faults out.new) result }
{
    let mut report = Report::new(alloc);
    report.say("{\"status\":");
    report.number(u64::from(status));
    put_name(&mut report, "message");
    report.say("\"");
    report.shown(Style::Json(true), words.as_bytes());
    report.shown(Style::Json(true), name.as_bytes());
    report.say("\"}\n");
    put_all(out, &report.into_bytes()?)?;
    Ok(())
}
