//! A line of a text, with marks under a part of it.

use book_faults::{Span, column_of, cut, line_end, line_of, line_start};
use explain_report::Report;

/// How many bytes of a line are shown, and how many in front of a part that stands further to the right.
const MOST_SHOWN: usize = 160;

const MOST_BEFORE: usize = 60;

/// What is shown of a line: from which byte, up to which one, and the part that is marked.
#[derive(Clone, Copy)]
struct Window {
    from: usize,
    to: usize,
    marked: Span,
}

/// What is shown of the line in which a part begins: a long line is cut, with some bytes in front of the part.
fn window_of(text: &[u8], span: Span) -> Window {
    let start = line_start(text, span.start);
    let end = line_end(text, span.start);
    let before = span.start.saturating_sub(start);
    let from = if before < MOST_SHOWN - MOST_BEFORE {
        start
    } else {
        span.start.saturating_sub(MOST_BEFORE)
    };
    let to = end.min(from.saturating_add(MOST_SHOWN));
    let last = span.end.min(to);
    Window {
        from,
        to,
        marked: Span::new(span.start, last.max(span.start.saturating_add(1))),
    }
}

/// A byte as it is shown: the end of a line as a blank, another control byte but for the tab as a question mark.
fn shown_byte(byte: u8) -> u8 {
    if byte == b'\n' {
        b' '
    } else if byte < 32 && byte != 9 || byte == 127 {
        b'?'
    } else {
        byte
    }
}

/// Puts bytes, each in one column.
fn put_shown(report: &mut Report, bytes: &[u8]) {
    for byte in bytes {
        report.times(1, shown_byte(*byte));
    }
}

/// As wide as the bytes, with nothing to be seen.
fn put_blanks(report: &mut Report, bytes: &[u8]) {
    for byte in bytes {
        report.times(1, if *byte == 9 { 9 } else { b' ' });
    }
}

/// How many digits a number has.
fn digits_of(number: u64) -> usize {
    let mut count: usize = 1;
    let mut rest = number / 10;
    for _ in 0..20 {
        if 0 < rest {
            count = count.saturating_add(1);
            rest /= 10;
        }
    }
    count
}

/// Puts the line in which a part begins, and marks under the part as far as that line goes.
pub(crate) fn put_excerpt(report: &mut Report, text: &[u8], span: Span) {
    let window = window_of(text, span);
    let line = line_of(text, span.start);
    let width = digits_of(line).saturating_add(1);
    report.times(width, b' ');
    report.say(" |\n ");
    report.number(line);
    report.say(" | ");
    put_shown(report, cut(text, Span::new(window.from, window.to)));
    report.say("\n");
    report.times(width, b' ');
    report.say(" | ");
    put_blanks(
        report,
        cut(text, Span::new(window.from, window.marked.start)),
    );
    report.times(window.marked.end.saturating_sub(window.marked.start), b'^');
    report.say("\n");
}

/// Puts a part of a text, up to so many bytes.
pub(crate) fn put_part(report: &mut Report, text: &[u8], span: Span, most: usize) {
    let part = cut(text, span);
    if part.len() <= most {
        return put_shown(report, part);
    }
    put_shown(report, cut(part, Span::new(0, most)));
    report.say("..");
}

/// Puts a place of a text.
pub(crate) fn put_place(report: &mut Report, file: &[u8], text: &[u8], offset: usize) {
    report.place(file, line_of(text, offset), column_of(text, offset));
}
