//! The words of the command line.

use clap::{Arg, ArgAction, ArgMatches, Command};
use command_line::{number_in, text_of};
use explain_text::{Format, Manner};
use std::alloc::{AllocError, Global};

/// The formats in which a run is told.
pub(crate) const FORMATS: [&str; 3] = ["text", "json", "html"];

/// When text has colors.
pub(crate) const COLORS: [&str; 3] = ["auto", "always", "never"];

/// An option with a number, and its range.
#[derive(Clone, Copy)]
pub(crate) struct Range {
    pub name: &'static str,
    pub least: u32,
    pub most: u32,
}

/// The options with numbers.
pub(crate) const RANGES: [Range; 7] = [
    Range {
        name: "workers",
        least: 1,
        most: 8,
    },
    Range {
        name: "steps",
        least: 1,
        most: 99_999_999,
    },
    Range {
        name: "cells",
        least: 1000,
        most: 4_000_000,
    },
    Range {
        name: "nodes",
        least: 100,
        most: 4_000_000,
    },
    Range {
        name: "clauses",
        least: 1,
        most: 1_000_000,
    },
    Range {
        name: "enum-bits",
        least: 0,
        most: 16,
    },
    SECONDS,
];

/// For how many seconds in all is tried what may decide an event.
const SECONDS: Range = Range {
    name: "seconds",
    least: 1,
    most: 99_999,
};

const USUAL_SECONDS: u32 = 60;

fn with_option<'a>(
    alloc: Global,
    command: Command<'a>,
    name: &'a str,
    help: &'a str,
) -> Result<Command<'a>, AllocError> {
    let option = Arg::new(alloc, name).long(name).help(help);
    command.arg(option.action(ArgAction::Set))
}

/// With the options of what is told.
fn with_manner<'a>(alloc: Global, command: Command<'a>) -> Result<Command<'a>, AllocError> {
    let command = with_option(
        alloc,
        command,
        "format",
        "What is written: text, json or html",
    )?;
    let command = command.arg(
        Arg::new(alloc, "all")
            .long("all")
            .help("Shows included books whole that have nothing to tell")
            .action(ArgAction::SetTrue),
    )?;
    let command = command.arg(
        Arg::new(alloc, "try")
            .long("try")
            .help("Tries what may decide an event that is undecided")
            .action(ArgAction::SetTrue),
    )?;
    let command = with_option(
        alloc,
        command,
        "seconds",
        "For how long --try goes on in all, 1 to 99999, usually 60",
    )?;
    with_option(
        alloc,
        command,
        "color",
        "Colors, seconds and a summary in text: auto (on a terminal), always or never",
    )
}

/// With the limits of a run, as `gl` has them.
fn with_limits<'a>(alloc: Global, command: Command<'a>) -> Result<Command<'a>, AllocError> {
    let command = with_option(alloc, command, "workers", "Workers at once, 1 to 8")?;
    let command = with_option(
        alloc,
        command,
        "steps",
        "Subterms of one evaluation, 1 to 99999999",
    )?;
    let command = with_option(
        alloc,
        command,
        "cells",
        "Objects of one arena, 1000 to 4000000",
    )?;
    let command = with_option(
        alloc,
        command,
        "nodes",
        "Nodes of one theorem, 100 to 4000000",
    )?;
    let command = with_option(
        alloc,
        command,
        "clauses",
        "Clauses that one search learns, 1 to 1000000",
    )?;
    with_option(
        alloc,
        command,
        "enum-bits",
        "Indices of a theorem whose inputs are tried, 0 to 16",
    )
}

/// The command: the limits of a run, how it is told, and a book.
pub(crate) fn command<'a>(alloc: Global) -> Result<Command<'a>, AllocError> {
    let command = Command::new(alloc, "explain").no_binary_name(true).about(
        "Runs a book as gl does, shows where each event stands, and says why a book is refused",
    );
    let command = with_limits(alloc, command)?;
    let command = with_manner(alloc, command)?;
    command.arg(Arg::new(alloc, "BOOK").required(true).help("The book"))
}

/// The format that words ask for.
fn format_of(matches: &ArgMatches) -> Option<Format> {
    match text_of(matches, "format") {
        None | Some("text") => Some(Format::Text),
        Some("json") => Some(Format::Json),
        Some("html") => Some(Format::Html),
        Some(_) => None,
    }
}

/// For how many seconds is tried what may decide an event: none where that is not asked for.
fn tries_of(matches: &ArgMatches) -> Option<Option<u32>> {
    let seconds = match text_of(matches, SECONDS.name) {
        Some(text) => number_in(text, SECONDS.least, SECONDS.most)?,
        None => USUAL_SECONDS,
    };
    Some(if matches.get_flag("try") {
        Some(seconds)
    } else {
        None
    })
}

/// How a run is told, where each word is one that its option takes: on a terminal, and with `--color always`, with seconds; in
/// colors there, but for `--color never`.
pub(crate) fn manner_of(matches: &ArgMatches, is_terminal: bool) -> Option<Manner> {
    let format = format_of(matches)?;
    let (colors, seconds) = match text_of(matches, "color") {
        None | Some("auto") => (is_terminal, is_terminal),
        Some("always") => (true, true),
        Some("never") => (false, is_terminal),
        Some(_) => return None,
    };
    Some(Manner {
        format,
        colors,
        seconds,
        shows_all: matches.get_flag("all"),
        tries: tries_of(matches)?,
    })
}
