//! The lines of a transcript as a page of HTML that stands alone.

ghost use Rattle.explain_report.specs.Put.{IsPut};

use crate::bases::put_bases;
use crate::record::{Input, Record, Verdict};
use crate::report::Report;
use crate::shown::{PutEnd, Style, put_line};
use crate::summary::{VERDICTS, all_micros, count_of, event_count, slowest};
use gl_base::sink::{Sink, put_all};
use gl_logic::NoMemory;
use std::alloc::Global;

/// How the page looks.
const STYLE: &str =
    "body{font:16px/1.5 system-ui,sans-serif;margin:0 auto;max-width:60rem;padding:1rem;color:#111;background:#fff}\
h1{font-size:1.4rem;overflow-wrap:anywhere}h2{font-size:1.15rem;margin-top:2rem;border-bottom:2px solid #111}\
h3{font-size:1rem;margin:0;overflow-wrap:anywhere}a{color:#034}code,pre{font-family:ui-monospace,monospace;font-size:.875rem}\
pre{overflow-x:auto;background:#f4f4f4;border:1px solid #bbb;padding:.5rem;margin:.5rem 0}pre.said{white-space:pre-wrap;overflow-wrap:anywhere}\
code{overflow-wrap:anywhere}ul.counts{list-style:none;padding:0;display:flex;flex-wrap:wrap;gap:.5rem}\
ul.counts li{border:1px solid #111;padding:.1rem .6rem}ul.counts b{font-size:1.15rem}\
ol.events{list-style:none;padding:0;margin:0}ol.events li{border-bottom:1px solid #ccc;padding:.3rem 0}\
.place{color:#444;font-size:.875rem}.seconds{float:right;padding-left:1rem;font-variant-numeric:tabular-nums}\
.track{clear:both;height:.5rem;border:1px solid #999;margin-top:.2rem}.bar{height:100%;background:#555}\
section{border:2px solid #111;border-left-width:.5rem;padding:.6rem;margin:1rem 0}\
table{border-collapse:collapse;display:block;overflow-x:auto;margin:.5rem 0}\
th,td{border:1px solid #999;padding:.15rem .5rem;text-align:left;font-family:ui-monospace,monospace;font-size:.875rem}\
.good .bar{background:#2b7a3d}.bad .bar{background:#b3261e}section.bad{border-color:#b3261e}\
.vacuous .bar{background:#b36b00}section.vacuous{border-color:#b36b00}\
.undecided .bar{background:#5b4b9e}section.undecided{border-color:#5b4b9e}";

/// How a text stands in HTML.
fn style_of(text: &[u8]) -> Style {
    Style::Html(str::from_utf8(text).is_ok())
}

/// Puts a text as HTML shows it.
pub(crate) fn put_text(report: &mut Report, text: &[u8]) {
    report.shown(style_of(text), text);
}

/// Puts the head of the page, and its title as a heading.
fn put_head(report: &mut Report, title: &[u8]) {
    report.say("<!doctype html>\n<html lang=\"en\">\n<head>\n<meta charset=\"utf-8\">\n");
    report.say("<meta name=\"viewport\" content=\"width=device-width, initial-scale=1\">\n");
    report.say("<link rel=\"icon\" href=\"data:,\">\n<title>");
    put_text(report, title);
    report.say("</title>\n<style>");
    report.say(STYLE);
    report.say("</style>\n</head>\n<body>\n<h1>");
    put_text(report, title);
    report.say("</h1>\n");
}

/// What the page says of a verdict in plural.
fn title_of(verdict: Verdict) -> &'static str {
    match verdict {
        Verdict::Proved => "proved",
        Verdict::Vacuous => "vacuous: nothing meets the hypothesis",
        Verdict::Refuted => "refuted",
        Verdict::Undecided => "undecided",
        Verdict::Refused => "the book is refused",
        Verdict::Failed => "asserts that are NIL",
        Verdict::Holds => "asserts that hold",
        Verdict::Value => "values",
        Verdict::Taken => "definitions, constants and modes",
        Verdict::Mark | Verdict::Done => "",
    }
}

/// How many events of a verdict there are, with a link to them.
fn put_count(report: &mut Report, verdict: Verdict, count: u64) {
    report.say("<li><a href=\"#of-");
    report.say(verdict.word());
    report.say("\"><b data-count=\"");
    report.say(verdict.word());
    report.say("\">");
    report.number(count);
    report.say("</b> ");
    report.say(verdict.word());
    report.say("</a></li>\n");
}

/// Puts how many events there are of each verdict, each count a link to its events.
fn put_counts(report: &mut Report, records: &[Record]) {
    report.say("<p>");
    report.number(event_count(records));
    report.say(if event_count(records) == 1 {
        " event in "
    } else {
        " events in "
    });
    report.millis(all_micros(records));
    report.say(" s</p>\n<ul class=\"counts\">\n");
    for verdict in &VERDICTS {
        let count = count_of(records, *verdict);
        if count > 0 {
            put_count(report, *verdict, count);
        }
    }
    report.say("</ul>\n");
}

/// A link to the event of a record, with its name or its kind.
fn put_link(report: &mut Report, number: usize, record: &Record) {
    report.say("<a href=\"#");
    report.say(if record.verdict().is_trouble() {
        "look-"
    } else {
        "event-"
    });
    report.number(number as u64);
    report.say("\">");
    put_title(report, record);
    report.say("</a>");
}

/// The name of a record's event; its kind where it has none.
fn put_title(report: &mut Report, record: &Record) {
    if record.name.as_slice().is_empty() {
        put_text(report, record.kind.as_slice());
    } else {
        put_text(report, record.name.as_slice());
    }
}

/// Puts the place of a line in its file, where it has one.
fn put_place(report: &mut Report, record: &Record) {
    if record.line == 0 {
        return;
    }
    report.say(" <span class=\"place\">");
    put_text(report, record.file.as_slice());
    report.say(":");
    report.number(record.line as u64);
    report.say(":");
    report.number(record.column as u64);
    report.say("</span>");
}

/// Puts the slowest events, each a link to its line.
fn put_slowest(alloc: Global, report: &mut Report, records: &[Record]) {
    let Ok(numbers) = slowest(alloc, records) else {
        return report.refuse();
    };
    report.say("<h2>slowest</h2>\n<ol class=\"events\">\n");
    for number in &numbers {
        if let Some(record) = records.get(*number) {
            report.say("<li><span class=\"seconds\">");
            report.millis(record.micros);
            report.say(" s</span>");
            put_link(report, *number, record);
            put_place(report, record);
            report.say("</li>\n");
        }
    }
    report.say("</ol>\n");
}

/// The part of the most that a number is, in hundredths.
fn share_of(micros: u64, most: u64) -> u64 {
    if most == 0 {
        0
    } else {
        micros.saturating_mul(100) / most
    }
}

/// The microseconds of the slowest event, for which a bar has its full length.
fn most_micros(records: &[Record]) -> u64 {
    let mut most: u64 = 0;
    for record in records {
        if record.micros > most {
            most = record.micros;
        }
    }
    most
}

/// What stands in front of the line of an event in the list of its verdict.
fn front_of_event(alloc: Global, number: usize, record: &Record) -> Result<Vec<u8>, NoMemory> {
    let mut report = Report::new(alloc);
    report.say("<li id=\"event-");
    report.number(number as u64);
    report.say("\"><span class=\"seconds\">");
    report.millis(record.micros);
    report.say(" s</span>");
    if record.verdict().is_trouble() {
        put_link(&mut report, number, record);
    } else {
        put_title(&mut report, record);
    }
    put_place(&mut report, record);
    report.say("<br><code>");
    report.into_bytes()
}

/// What stands behind it: a bar.
fn back_of_event(alloc: Global, record: &Record, most: u64) -> Result<Vec<u8>, NoMemory> {
    let mut report = Report::new(alloc);
    report.say("</code><div class=\"track\"><div class=\"bar\" style=\"width:");
    report.number(share_of(record.micros, most));
    report.say("%\"></div></div></li>\n");
    report.into_bytes()
}

/// Puts a line of the transcript into the list of its verdict, with its place and its seconds.
fn put_event<K: Sink>(
    alloc: Global,
    out: &mut K,
    number: usize,
    record: &Record,
    most: u64,
) -> Result<(), PutEnd>
    ensures cause { IsPut (K.faults out.old) (K.faults out.new) result }
{
    let front = front_of_event(alloc, number, record)?;
    let back = back_of_event(alloc, record, most)?;
    let text = record.text.as_slice();
    put_line(alloc, out, style_of(text), &front, text, &back)
}

/// The class of what is shown of a verdict.
fn class_of(verdict: Verdict) -> &'static str {
    match verdict {
        Verdict::Vacuous => "vacuous",
        Verdict::Undecided => "undecided",
        _ if verdict.is_trouble() => "bad",
        _ => "good",
    }
}

/// The heading of the events of one verdict.
fn head_of_group(alloc: Global, verdict: Verdict, count: u64) -> Result<Vec<u8>, NoMemory> {
    let mut report = Report::new(alloc);
    report.say("<h2 id=\"of-");
    report.say(verdict.word());
    report.say("\">");
    report.say(title_of(verdict));
    report.say(" (");
    report.number(count);
    report.say(")</h2>\n<ol class=\"events ");
    report.say(class_of(verdict));
    report.say("\">\n");
    report.into_bytes()
}

/// The events of a verdict, where there are any.
fn put_group<K: Sink>(
    alloc: Global,
    out: &mut K,
    records: &[Record],
    verdict: Verdict,
    most: u64,
) -> Result<(), PutEnd>
    ensures cause { IsPut (K.faults out.old) (K.faults out.new) result }
{
    let count = count_of(records, verdict);
    if count == 0 {
        return Ok(());
    }
    put_all(out, &head_of_group(alloc, verdict, count)?)?;
    for (i, record) in records.iter().enumerate() {
        if record.verdict() == verdict {
            put_event(alloc, out, i, record, most)?;
        }
    }
    put_all(out, b"</ol>\n")?;
    Ok(())
}

fn put_input(report: &mut Report, input: &Input, bits: usize) {
    report.say("<tr><td>");
    put_text(report, input.name.as_slice());
    report.say("</td>");
    put_bases(report, input.text.as_slice(), bits);
    report.say("</tr>\n");
}

fn put_inputs(report: &mut Report, inputs: &[Input], widths: &[usize]) {
    if inputs.is_empty() {
        return;
    }
    report.say(
        "<table>\n<tr><th>input</th><th>decimal</th><th>hexadecimal</th><th>binary</th></tr>\n",
    );
    for (i, input) in inputs.iter().enumerate() {
        let bits = widths.get(i).copied().unwrap_or(0);
        put_input(report, input, bits);
    }
    report.say("</table>\n");
}

/// A text as it is laid out; long lines of what is said are broken, but for those of a refusal, which has marks under a line.
fn put_block(report: &mut Report, front: &str, text: &[u8]) {
    if text.is_empty() {
        return;
    }
    report.say(front);
    put_text(report, text);
    report.say("</pre>\n");
}

/// What stands in front of the line of an event that asks for a look.
fn front_of_look(alloc: Global, number: usize, record: &Record) -> Result<Vec<u8>, NoMemory> {
    let mut report = Report::new(alloc);
    report.say("<section class=\"");
    report.say(class_of(record.verdict()));
    report.say("\" id=\"look-");
    report.number(number as u64);
    report.say("\">\n<h3>");
    put_title(&mut report, record);
    put_place(&mut report, record);
    report.say("</h3>\n<code>");
    report.into_bytes()
}

/// What stands behind it: the input, the event's form, and what is said.
fn back_of_look(alloc: Global, record: &Record) -> Result<Vec<u8>, NoMemory> {
    let mut report = Report::new(alloc);
    report.say("</code>\n");
    put_inputs(&mut report, record.inputs(), record.widths.as_slice());
    put_block(&mut report, "<pre>", record.source.as_slice());
    let front = if record.verdict() == Verdict::Refused {
        "<pre>"
    } else {
        "<pre class=\"said\">"
    };
    put_block(&mut report, front, record.message.as_slice());
    report.say("</section>\n");
    report.into_bytes()
}

/// Puts an event that asks for a look, with its input, its form and what is said of it.
fn put_look<K: Sink>(
    alloc: Global,
    out: &mut K,
    number: usize,
    record: &Record,
) -> Result<(), PutEnd>
    ensures cause { IsPut (K.faults out.old) (K.faults out.new) result }
{
    let front = front_of_look(alloc, number, record)?;
    let back = back_of_look(alloc, record)?;
    let text = record.text.as_slice();
    put_line(alloc, out, style_of(text), &front, text, &back)
}

/// The events that ask for a look.
fn put_looks<K: Sink>(alloc: Global, out: &mut K, records: &[Record]) -> Result<(), PutEnd>
    ensures cause { IsPut (K.faults out.old) (K.faults out.new) result }
{
    let mut is_first = true;
    for (i, record) in records.iter().enumerate() {
        if record.verdict().is_trouble() {
            if is_first {
                put_all(out, b"<h2>to look at</h2>\n")?;
                is_first = false;
            }
            put_look(alloc, out, i, record)?;
        }
    }
    Ok(())
}

/// What stands in front of the first event: the head, the counts, the slowest.
fn head_of_page(alloc: Global, title: &[u8], records: &[Record]) -> Result<Vec<u8>, NoMemory> {
    let mut report = Report::new(alloc);
    put_head(&mut report, title);
    put_counts(&mut report, records);
    put_slowest(alloc, &mut report, records);
    report.into_bytes()
}

/// Writes the page of a run.
pub fn put_page<K: Sink>(
    alloc: Global,
    out: &mut K,
    title: &[u8],
    records: &[Record],
) -> Result<(), PutEnd>
    ensures cause { IsPut (K.faults out.old) (K.faults out.new) result }
{
    put_all(out, &head_of_page(alloc, title, records)?)?;
    put_looks(alloc, out, records)?;
    let most = most_micros(records);
    for verdict in &VERDICTS {
        put_group(alloc, out, records, *verdict, most)?;
    }
    put_all(out, b"</body>\n</html>\n")?;
    Ok(())
}
