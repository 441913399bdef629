//! What is said on standard error where there is no run, or where one failed.

use crate::words::{COLORS, FORMATS, RANGES, Range};
use clap::ArgMatches;
use command_line::{number_in, text_of};
use gl_base::status::Status;

/// Why a run failed, in front of the name of the text that it read last, where it failed for want of that.
pub(crate) fn complaint_of(status: Status) -> Option<&'static str> {
    match status {
        Status::ReadFault => Some("cannot read "),
        Status::WriteFault => Some("cannot write to standard output"),
        Status::NoMemory => Some(
            "the system refused memory; give the process more, or lower --nodes, --cells, --clauses or --workers",
        ),
        _ => None,
    }
}

/// The first option whose number is out of its range, with what stands there.
fn odd_number<'a>(matches: &ArgMatches<'a>) -> Option<(Range, &'a str)> {
    for range in &RANGES {
        if let Some(text) = text_of(matches, range.name) {
            if number_in(text, range.least, range.most).is_none() {
                return Some((*range, text));
            }
        }
    }
    None
}

fn contains(words: &[&str], text: &str) -> bool {
    for word in words {
        if *word == text {
            return true;
        }
    }
    false
}

/// Says which option has what it cannot have.
pub(crate) fn complain_of_words<R: Eprint>(rt: &R, matches: &ArgMatches) {
    if let Some((range, text)) = odd_number(matches) {
        let Range { name, least, most } = range;
        let _told = eprintln!(rt;
            "explain: --{name} takes a number from {least} to {most}, and {text} is none; see explain --help"
        );
    }
    if let Some(text) = text_of(matches, "format") {
        if !contains(&FORMATS, text) {
            let _told = eprintln!(rt;
                "explain: --format takes text, json or html, and {text} is none of them"
            );
        }
    }
    if let Some(text) = text_of(matches, "color") {
        if !contains(&COLORS, text) {
            let _told = eprintln!(rt;
                "explain: --color takes auto, always or never, and {text} is none of them"
            );
        }
    }
}
