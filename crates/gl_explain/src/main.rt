//! `explain [options] BOOK`: a book's transcript with the place of each event, and why a book is refused.
#![tactic(auto)]

mod complaint;
mod ticker;
mod words;

use clap::error::ErrorKind as ClapKind;
use clap::{ArgMatches, Error};
use command_line::{FileShelf, WordsEnd, WriterSink, limits_of, words_of};
use complaint::{complain_of_words, complaint_of};
use explain_report::put_status;
use explain_text::{Explained, Format, NamingShelf, Outlet, Progress, explain_book};
use gl_base::limits::Limits;
use gl_base::sink::Sink;
use gl_base::status::Status;
use std::io::{self, IsTerminal, Write};
use std::process::ExitCode;
use std::rt::{Clock, Env, Files};
use std::thread::{self, Threads};
use ticker::tick;
use words::{command, manner_of};

/// What is known of the streams of the process: which of them are terminals, and standard error.
#[derive(Drop)]
struct Streams<E: Write + Drop> {
    is_out_terminal: bool,
    is_error_terminal: bool,
    error: E,
}

fn main(rt: HostRuntime) -> ExitCode {
    let streams = Streams {
        is_out_terminal: rt.stdout().is_terminal(),
        is_error_terminal: rt.stderr().is_terminal(),
        error: rt.stderr(),
    };
    ExitCode::from(status_of(&rt, streams).code())
}

/// Runs the command of the process.
fn status_of<
    R: Files + Print + Eprint + Env + AllocGlobal + Threads + Sync + Clock,
    E: Write + Drop,
>(rt: &R, streams: Streams<E>) -> Status {
    let words = match words_of(rt) {
        Ok(words) => words,
        Err(WordsEnd::Memory) => return Status::NoMemory,
        Err(_) => {
            let _told = rt.eprintln(
                "explain: a word of the command is no text; see explain --help",
            );
            return Status::Usage;
        }
    };
    let Ok(command) = command(rt.alloc()) else {
        return Status::NoMemory;
    };
    match command.try_get_matches_from(words.as_slice()) {
        Ok(matches) => run(rt, &matches, streams),
        Err(error) => tell(rt, &error),
    }
}

/// Writes the help, or why words are no command.
fn tell<R: Print + Eprint>(rt: &R, error: &Error) -> Status {
    let kind = error.kind();
    if kind == ClapKind::OutOfMemory {
        return Status::NoMemory;
    }
    match error.print(rt) {
        Ok(()) if kind == ClapKind::DisplayHelp => Status::Good,
        Ok(()) => Status::Usage,
        Err(_) => Status::WriteFault,
    }
}

/// Runs the book that words name.
fn run<R: Files + Print + Eprint + AllocGlobal + Threads + Sync + Clock, E: Write + Drop>(
    rt: &R,
    matches: &ArgMatches,
    streams: Streams<E>,
) -> Status {
    let limits = limits_of(matches);
    let manner = manner_of(matches, streams.is_out_terminal);
    let (Some(limits), Some(manner)) = (limits, manner) else {
        complain_of_words(rt, matches);
        return Status::Usage;
    };
    let Some(name) = matches.get_str("BOOK") else {
        return Status::Usage;
    };
    let Streams {
        is_error_terminal,
        error,
        ..
    } = streams;
    let notes = WriterSink::new(error);
    let outlet = Outlet {
        out: WriterSink::new(io::writer(rt)),
        notes: if is_error_terminal { Some(notes) } else { None },
        manner,
    };
    let progress = Progress::new();
    let (_, status) = thread::join(
        rt,
        || tick(rt, &progress, is_error_terminal),
        || explain(rt, name, &limits, outlet, &progress),
    );
    status
}

/// Explains a book, and says on standard error why that failed.
fn explain<
    R: Files + Print + Eprint + AllocGlobal + Threads + Sync + Clock,
    K: Sink + Drop,
    E: Sink + Drop,
>(rt: &R, name: &str, limits: &Limits, outlet: Outlet<K, E>, progress: &Progress) -> Status {
    let format = outlet.manner.format;
    let mut shelf = NamingShelf::new(rt.alloc(), FileShelf::new(rt));
    let alloc = rt.alloc();
    let Explained { status, .. } = explain_book(
        rt, alloc, name, limits, &mut shelf, outlet, progress,
    );
    progress.end();
    complain(rt, format, status, shelf.last_name());
    status
}

/// Says on standard error why a run failed, and in JSON as an object too, where that can still be written.
fn complain<R: Print + Eprint + AllocGlobal>(rt: &R, format: Format, status: Status, name: &str) {
    let Some(words) = complaint_of(status) else {
        return;
    };
    let name = if status == Status::ReadFault {
        name
    } else {
        ""
    };
    let _told = eprintln!(rt; "explain: {words}{name}");
    if format == Format::Json {
        let mut out = WriterSink::new(io::writer(rt));
        let _put = put_status(rt.alloc(), &mut out, status.code(), words, name);
    }
}
