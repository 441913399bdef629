//! The pieces that a run hands over: each line is one, no piece holds parts of two, and one flush comes behind the last one.

ghost use Rattle.std.specs.Prelude.{◌≡◌, Some};

use super::rows::{USAGE, shelf_of, told_to, words_in};
use crate::run::run;
use gl_base::failed::Failed;
use gl_base::memory_shelf::MemoryShelf;
use gl_base::memory_sink::MemorySink;
use gl_base::sink::Sink;
use gl_book::Transcript;
use std::alloc::{AllocError, Global};
use std::process::Abort;
use std::test::Fail;
use std::thread::Threads;

/// A sink that tells its calls: a piece with a bar behind it, and a flush as `~`.
#[derive(Drop)]
struct Telling {
    inner: MemorySink,
    told: Vec<u8>,
}

impl Telling {
    fn new(alloc: Global) -> Result<Telling, Fail> {
        Ok(Telling {
            inner: MemorySink::new(alloc, 10_000, Vec::new(alloc))?,
            told: Vec::new(alloc),
        })
    }

    /// Tells a call. Where memory is refused it is left out, and what is told is then not what is wanted.
    fn tell(&mut self, piece: &[u8], end: u8)
        ensures { self.new.inner ≡ self.old.inner }
    {
        let _told = self.told.extend_from_slice(piece);
        let _told = self.told.push(end);
    }
}

impl Sink for Telling {
    ghost written = { λ s. Some s.inner.taken };

    ghost faults = { λ s. s.inner.calls.faults };

    fn write(&mut self, piece: &[u8]) -> Result<usize, Failed> {
        self.tell(piece, b'|');
        self.inner.write(piece)
    }

    fn flush(&mut self) -> Result<(), Failed> {
        self.tell(&[], b'~');
        self.inner.flush()
    }
}

const VALUES: &str = "(value-triple '(1 2)) (value-triple \"a\nb\") (assert-event 3)";

const REFUTED: &str =
    "(gl-satlink-mode) (def-gl-thm f :hyp (unsigned-byte-p 3 x) :concl (< x 7) :g-bindings (auto-bindings (:nat x 3)))";

const REFUSED: &str = "(value-triple 1)\n(value-triple x)";

/// Words, the book `b`, and the calls of the sink.
const ROWS: [(&str, &str, &str); 10] = [
    (
        "b",
        VALUES,
        "VALUE (1 2)\n|VALUE \"a\nb\"\n|ASSERT ok\n|DONE proved=0 vacuous=0 refuted=0 undecided=0\n|~",
    ),
    (
        "--workers 2 b",
        VALUES,
        "VALUE (1 2)\n|VALUE \"a\nb\"\n|ASSERT ok\n|DONE proved=0 vacuous=0 refuted=0 undecided=0\n|~",
    ),
    (
        "b",
        REFUTED,
        "MODE SAT\n|REFUTED F\n|  X = 7\n|DONE proved=0 vacuous=0 refuted=1 undecided=0\n|~",
    ),
    (
        "b",
        REFUSED,
        "VALUE 1\n|REFUSED 2 1 V6\n|DONE proved=0 vacuous=0 refuted=0 undecided=0\n|~",
    ),
    (
        "--generate 1",
        "",
        "DONE proved=1 vacuous=0 refuted=0 undecided=0\n|~",
    ),
    ("--proof cnf b", REFUTED, "REFUTED F\n|  X = 7\n|~"),
    ("--proof log b", REFUTED, "REFUTED F\n|  X = 7\n|~"),
    ("--proof cnf b", VALUES, "NOPROOF\n|~"),
    ("lrat b b", "", "BAD cnf 1\n|~"),
    ("none", "", ""),
];

/// Runs words over a shelf.
fn run_words<R: AllocGlobal + Threads + Sync>(
    rt: &R,
    words: &str,
    shelf: &mut MemoryShelf,
    out: &mut Transcript<Telling>,
) -> Result<(), AllocError> {
    let words = words_in(rt.alloc(), words)?;
    let _status = run(rt, rt.alloc(), words.as_slice(), shelf, out);
    Ok(())
}

/// Compares the calls of the sink of a run.
fn hands_over<R: AllocGlobal + Threads + Sync + Abort>(
    rt: &R,
    row: (&str, &str, &str),
) -> Result<(), Fail> {
    let (words, book, want) = row;
    let alloc = rt.alloc();
    let mut shelf = shelf_of(alloc, book.as_bytes().to_vec(alloc)?, 0)?;
    let mut out = told_to(alloc, Telling::new(alloc)?);
    run_words(rt, words, &mut shelf, &mut out)?;
    assert_eq!(rt;
        out.sink.told.as_slice(),
        want.as_bytes(),
        "{words}: {book}"
    );
    Ok(())
}

fn try_rows<R: AllocGlobal + Threads + Sync + Abort>(rt: &R) -> Result<(), Fail> {
    for row in ROWS.iter().copied() {
        hands_over(rt, row)?;
    }
    Ok(())
}

#[test]
fn a_piece_for_each_line(rt: HostRuntime) -> Result<(), Fail> {
    try_rows(&rt)
}

/// No flush follows the usage line.
#[test]
fn usage_line(rt: HostRuntime) -> Result<(), Fail> {
    let alloc = rt.alloc();
    let mut want = USAGE.as_bytes().to_vec(alloc)?;
    want.push(b'|')?;
    let mut shelf = shelf_of(alloc, Vec::new(alloc), 0)?;
    let mut out = told_to(alloc, Telling::new(alloc)?);
    run_words(&rt, "", &mut shelf, &mut out)?;
    assert_eq!(rt; out.sink.told.as_slice(), want.as_slice());
    Ok(())
}
