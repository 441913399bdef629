//! Books of values and of theorems, and outsides that fail, that take a little at a time, and that never fail.

ghost use Rattle.std.specs.Prelude.{◌<◌, ℕ, List, Some};

use super::rows::{FaultRow, all_give, each_fault_gives, shelf_of, texts_of, told_to, words_in};
use crate::run::run;
use gl_base::failed::Failed;
use gl_base::memory_shelf::MemoryShelf;
use gl_base::memory_sink::MemorySink;
use gl_base::shelf::Shelf;
use gl_base::sink::Sink;
use gl_base::sure_shelf::SureShelf;
use gl_base::sure_sink::SureSink;
use gl_book::Transcript;
use std::alloc::{AllocError, Global};
use std::process::Abort;
use std::test::Fail;
use std::thread::Threads;

const FIRST_BOOK: &str = "(value-triple (car (cons 'a 2)))\n";

const FIRST_LINES: &str = "VALUE A\nDONE proved=0 vacuous=0 refuted=0 undecided=0\n";

const NO_LINES: &str = "DONE proved=0 vacuous=0 refuted=0 undecided=0\n";

/// Values, and then theorems, the last of 1,024 indices.
const BOOKS: &str = r#"
== b
(value-triple (car (cons 'a 2)))
=> 0
VALUE A
DONE proved=0 vacuous=0 refuted=0 undecided=0
== b
(value-triple (equal (cons 1 nil) '(1)))=> 0
VALUE T
DONE proved=0 vacuous=0 refuted=0 undecided=0
== b
=> 0
DONE proved=0 vacuous=0 refuted=0 undecided=0
== b

 
=> 0
DONE proved=0 vacuous=0 refuted=0 undecided=0
== b
(VALUE-triple 007)(value-triple -12)=> 0
VALUE 7
VALUE -12
DONE proved=0 vacuous=0 refuted=0 undecided=0
== b
(value-triple t) (value-triple nil) (value-triple ())=> 0
VALUE T
VALUE NIL
VALUE NIL
DONE proved=0 vacuous=0 refuted=0 undecided=0
== b
(value-triple '(1 (b-2 c) () -0 'd))=> 0
VALUE (1 (B-2 C) NIL 0 (QUOTE D))
DONE proved=0 vacuous=0 refuted=0 undecided=0
== b
(value-triple (cons 1 (cons 2 3)))=> 0
VALUE (1 2 . 3)
DONE proved=0 vacuous=0 refuted=0 undecided=0
== b
(value-triple (cdr '(1 2)))(value-triple (cdr 5))=> 0
VALUE (2)
VALUE NIL
DONE proved=0 vacuous=0 refuted=0 undecided=0
== b
(value-triple (if (equal 'x 'y) 1 (if 0 2 3)))=> 0
VALUE 2
DONE proved=0 vacuous=0 refuted=0 undecided=0
== b
(value-triple '(a . (#\Space "q\"r" :k -0)))=> 0
VALUE (A #\Space "q\"r" :K 0)
DONE proved=0 vacuous=0 refuted=0 undecided=0
== b
(value-triple -170141183460469231731687303715884105728)=> 0
VALUE -170141183460469231731687303715884105728
DONE proved=0 vacuous=0 refuted=0 undecided=0
== b
; one
(value-triple #| two #| three |# |# 1) ; and no end=> 0
VALUE 1
DONE proved=0 vacuous=0 refuted=0 undecided=0
== b
(def-gl-thm small :hyp (unsigned-byte-p 4 x) :concl (< x 15) :g-bindings (auto-bindings (:nat x 4)))=> 1
REFUTED SMALL
  X = 15
DONE proved=0 vacuous=0 refuted=1 undecided=0
== b
(def-gl-thm short :hyp (unsigned-byte-p 8 x) :concl (< x 256) :g-bindings (auto-bindings (:nat x 7)))=> 3
UNDECIDED SHORT uncovered X
DONE proved=0 vacuous=0 refuted=0 undecided=1
== b
(def-gl-thm short :hyp (unsigned-byte-p 8 x) :concl (< x 256) :g-bindings (auto-bindings (:nat x 8)))=> 0
PROVED SHORT
DONE proved=1 vacuous=0 refuted=0 undecided=0
== b
(def-gl-thm none :hyp (if (unsigned-byte-p 2 x) (< x 0) nil) :concl (equal x 7) :g-bindings (auto-bindings (:nat x 2)))=> 0
VACUOUS NONE
DONE proved=0 vacuous=1 refuted=0 undecided=0
== b
(def-gl-thm wide :hyp (unsigned-byte-p 12 x) :concl (< x 4096) :g-bindings (auto-bindings (:nat x 12)))=> 0
PROVED WIDE
DONE proved=1 vacuous=0 refuted=0 undecided=0
== b
(def-gl-thm n :hyp t :concl t :g-bindings (auto-bindings (:nat a 127) (:nat b 127) (:nat c 127) (:nat d 127) (:nat e 127) (:nat f 127) (:nat g 127) (:nat h 127)))=> 0
PROVED N
DONE proved=1 vacuous=0 refuted=0 undecided=0
"#;

#[test]
fn books_of_values_and_theorems(rt: HostRuntime) -> Result<(), Fail> {
    all_give(&rt, BOOKS)
}

/// The calls of the shelf are the open, the bytes and the end, and no text has the last name; those of the sink are two
/// lines and the flush.
const FAULTS: [FaultRow; 9] = [
    ("b", 1, 0, "", 4),
    ("b", 2, 0, "", 4),
    ("b", 3, 0, "", 4),
    ("b", 4, 0, FIRST_LINES, 0),
    ("c", 4, 0, "", 4),
    ("b", 0, 1, "", 5),
    ("b", 0, 2, "VALUE A\n", 5),
    ("b", 0, 3, FIRST_LINES, 5),
    ("b", 0, 4, FIRST_LINES, 0),
];

#[test]
fn faults_of_shelf_and_sink(rt: HostRuntime) -> Result<(), Fail> {
    each_fault_gives(&rt, FIRST_BOOK, &FAULTS)
}

/// A sink that takes a few bytes at a time.
#[derive(Drop)]
struct Slow {
    inner: MemorySink,
    step: usize,
    ghost some: { 0 < step },
}

impl Sink for Slow {
    ghost written = { λ s. Some s.inner.taken };

    ghost faults = { λ s. s.inner.calls.faults };

    fn write(&mut self, piece: &[u8]) -> Result<usize, Failed> {
        self.inner.write(&piece[..self.step.min(piece.len())])
    }

    fn flush(&mut self) -> Result<(), Failed> {
        self.inner.flush()
    }
}

/// The code of the status of a run with these words.
fn code_of<R: AllocGlobal + Threads + Sync, S: Shelf, K: Sink>(
    rt: &R,
    words: &str,
    shelf: &mut S,
    out: &mut Transcript<K>,
) -> Result<u8, AllocError>
    requires { (name : List ℕ) → S.may_open name }
{
    let words = words_in(rt.alloc(), words)?;
    let status = run(rt, rt.alloc(), words.as_slice(), shelf, out);
    Ok(status.code())
}

/// A shelf with the first book.
fn first_shelf(alloc: Global) -> Result<MemoryShelf, Fail> {
    let book = FIRST_BOOK.as_bytes().to_vec(alloc)?;
    shelf_of(alloc, book, 0)
}

/// A sink that takes so many bytes at a time.
fn slow_sink(alloc: Global, step: usize) -> Result<Slow, Fail>
    requires { 0 < step }
{
    let inner = MemorySink::new(alloc, 100, Vec::new(alloc))?;
    Ok(Slow { inner, step })
}

fn try_slow<R: AllocGlobal + Threads + Sync + Abort>(
    rt: &R,
    shelf: &mut MemoryShelf,
    out: &mut Transcript<Slow>,
) -> Result<(), Fail> {
    let code = code_of(rt, "b", shelf, out)?;
    assert!(rt; code == 0 && out.sink.inner.bytes() == FIRST_LINES.as_bytes());
    Ok(())
}

fn try_step<R: AllocGlobal + Threads + Sync + Abort>(rt: &R, step: usize) -> Result<(), Fail>
    requires { 0 < step }
{
    let mut shelf = first_shelf(rt.alloc())?;
    let mut out = told_to(rt.alloc(), slow_sink(rt.alloc(), step)?);
    try_slow(rt, &mut shelf, &mut out)
}

#[test]
fn slow_sinks(rt: HostRuntime) -> Result<(), Fail> {
    try_step(&rt, 1)?;
    try_step(&rt, 3)
}

fn try_sure<R: AllocGlobal + Threads + Sync + Abort>(
    rt: &R,
    shelf: &mut SureShelf,
    words: &str,
    want: &str,
) -> Result<(), Fail> {
    let mut out = told_to(rt.alloc(), SureSink::new(rt.alloc(), 100)?);
    let code = code_of(rt, words, shelf, &mut out)?;
    assert!(rt; code == 0 && out.sink.bytes() == want.as_bytes(), "{words}");
    Ok(())
}

#[test]
fn sure_shelf_and_sink(rt: HostRuntime) -> Result<(), Fail> {
    let book = FIRST_BOOK.as_bytes().to_vec(rt.alloc())?;
    let mut shelf = SureShelf::new(rt.alloc(), texts_of(rt.alloc(), book)?)?;
    try_sure(&rt, &mut shelf, "b", FIRST_LINES)?;
    try_sure(&rt, &mut shelf, "c", NO_LINES)
}
