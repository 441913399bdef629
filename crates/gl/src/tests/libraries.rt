//! Calls of the outside that fail in a book that includes another.

use super::rows::{Fails, compare, first_lines, outcome_over};
use std::alloc::{AllocError, Global};
use std::process::Abort;
use std::test::Fail;
use std::thread::Threads;

const BOOK: &str = "(include-book \"a\")\n(include-book \"a\")\n(value-triple (f 2))\n";

const INCLUDED: &str = "(defun f (x) (+ x 1))\n";

/// The transcript.
const LINES: &str = "\
BOOK a
DEFUN F
END a
SAME a
VALUE 3
DONE proved=0 vacuous=0 refuted=0 undecided=0
";

/// Both texts with their names.
fn texts(alloc: Global) -> Result<Vec<(String, Vec<u8>)>, AllocError> {
    let mut texts = Vec::new(alloc);
    texts.push((
        String::from_str(alloc, "m.lisp")?,
        BOOK.as_bytes().to_vec(alloc)?,
    ))?;
    texts.push((
        String::from_str(alloc, "a.lisp")?,
        INCLUDED.as_bytes().to_vec(alloc)?,
    ))?;
    Ok(texts)
}

/// Runs the book where a call of the shelf and one of the sink fail. What is written are the first lines, so many.
fn fails<R: AllocGlobal + Threads + Sync + Abort>(
    rt: &R,
    calls: Fails,
    taken: usize,
    status: u8,
) -> Result<(), Fail> {
    let want = first_lines(rt.alloc(), LINES, taken)?;
    let given = outcome_over(rt, "m.lisp", texts(rt.alloc())?, 1000, calls)?;
    compare(
        rt,
        &given,
        ("m.lisp", BOOK, calls),
        (want.as_slice(), status, 0),
    );
    Ok(())
}

fn try_calls<R: AllocGlobal + Threads + Sync + Abort>(rt: &R) -> Result<(), Fail> {
    // the calls of the sink: each line, and the flush
    for taken in 0..7usize {
        fails(rt, (0, taken as u64 + 1), taken, 5)?;
    }
    // the calls of the shelf: open, the bytes and the end of each text
    for call in 1..7 {
        fails(rt, (call, 0), 0, 4)?;
    }
    fails(rt, (7, 8), 6, 0)
}

#[test]
fn each_call_fails_once(rt: HostRuntime) -> Result<(), Fail> {
    try_calls(&rt)
}
