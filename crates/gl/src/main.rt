//! `gl [options] BOOK`: a book's transcript on standard output. `gl [options] --generate N`: the last line of that of a
//! generated book. `gl [options] --proof cnf BOOK`, or `log`: a text of the proof of the book's last theorem.
//! `gl lrat [options] CNF LOG`: the judgement on a formula and a log.
#![tactic(auto)]

mod judging;
mod proving;
mod putting;
mod run;
#[cfg(test)]
mod tests;

use command_line::{FileShelf, WriterSink, words_of};
use gl_base::status::Status;
use gl_words::refuse_end;
use run::run_to;
use std::io;
use std::process::ExitCode;
use std::rt::{Env, Files};
use std::thread::Threads;

fn main(rt: HostRuntime) -> ExitCode {
    ExitCode::from(status_of(&rt).code())
}

/// Runs the command of the process.
fn status_of<R: Files + Print + Env + AllocGlobal + Threads + Sync>(rt: &R) -> Status {
    let writer = io::writer(rt);
    match words_of(rt) {
        Ok(words) => {
            let mut shelf = FileShelf::new(rt);
            run_to(rt, rt.alloc(), words.as_slice(), &mut shelf, writer).status
        }
        Err(end) => refuse_end(end, &mut WriterSink::new(writer)),
    }
}
