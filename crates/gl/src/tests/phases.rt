//! Jobs that are answered together, by any number of workers.

ghost use Rattle.std.specs.Prelude.{◌≤◌};

use super::counting::Counting;
use super::meeting::Meeting;
use super::rows::told_to;
use gl_base::limits::Limits;
use gl_base::memory_sink::MemorySink;
use gl_base::status::Status;
use gl_book::{Run, Transcript, run_text, run_text_gated};
use gl_decide::Gate;
use std::alloc::Global;
use std::process::Abort;
use std::thread::Threads;

const BOOK: &[u8] = b"(in-package \"ACL2\")
(value-triple (+ 1 2))
(defun len2 (x) (if (consp x) (+ 2 (len2 (cdr x))) 0))
(value-triple (len2 '(1 2 3)))
(memoize 'len2)
(value-triple (len2 '(a b)))
(assert-event (equal (len2 nil) 0))
(gl-satlink-mode)
(assert-event (equal (len2 nil) 1))
(def-gl-thm small :hyp (unsigned-byte-p 4 x) :concl (< x 16) :g-bindings '((x (:g-integer 0 1 2 3 4))))
(def-gl-thm seven :hyp (unsigned-byte-p 4 x) :concl (< (mod x 8) 7) :g-bindings '((x (:g-integer 0 1 2 3 4))))
(def-gl-thm seven :hyp (unsigned-byte-p 4 x) :concl (< (mod x 8) 7) :g-bindings '((x (:g-integer 0 1 2 3 4))))
(value-triple (floor 7 2))
(unmemoize 'len2)
(value-triple (len2 '(1)))
(defconst *three* (len2 '(3)))
(value-triple *three*)
(gl-bdd-mode)
(def-gl-thm open :hyp t :concl (equal x x) :g-bindings '((x (:g-boolean . 0))))
(value-triple (+ 170141183460469231731687303715884105727 1))
(mutual-recursion (defun ev2 (n) (declare (xargs :measure (nfix n))) (if (zp n) t (od2 (- n 1)))) (defun od2 (n) (declare (xargs :measure (nfix n))) (if (zp n) nil (ev2 (- n 1)))))
(value-triple (ev2 10))
(assert-event (ev2 3))
(value-triple (car '(x . y)))
(defun bad (x) (bad x))
(value-triple 5)
";

/// The status of a run by so many workers, and how many stalls it adds.
fn run_with<R: Threads + Sync>(
    rt: &R,
    alloc: Global,
    workers: u8,
    last_only: bool,
    out: &mut Transcript<MemorySink>,
) -> (Status, u64)
    requires one { 1 ≤ workers }
    requires eight { workers ≤ 8 }
{
    let mut limits = Limits::usual();
    limits.workers = workers;
    let status = run_text(rt, alloc, BOOK, &limits, last_only, out);
    (status, out.stalls.len())
}

fn new_out(rt: &impl Abort, alloc: Global) -> Transcript<MemorySink> {
    let sink = MemorySink::new(alloc, 10000, Vec::new(alloc)).expect(rt, "memory");
    told_to(alloc, sink)
}

/// What so many workers write is what is given.
fn writes_the_same<R: Abort + Threads + Sync>(
    rt: &R,
    alloc: Global,
    workers: u8,
    given: (Status, u64),
    bytes: &[u8],
)
    requires one { 1 ≤ workers }
    requires eight { workers ≤ 8 }
{
    let mut out = new_out(rt, alloc);
    let (status, stalls) = run_with(rt, alloc, workers, false, &mut out);
    assert!(rt; status == given.0);
    assert!(rt; out.sink.bytes() == bytes);
    assert!(rt; stalls == given.1);
}

/// The last line alone that so many workers write is the end of what is given.
fn writes_the_end<R: Abort + Threads + Sync>(rt: &R, alloc: Global, workers: u8, bytes: &[u8])
    requires one { 1 ≤ workers }
    requires eight { workers ≤ 8 }
{
    let mut out = new_out(rt, alloc);
    let _ = run_with(rt, alloc, workers, true, &mut out);
    assert!(rt; bytes.ends_with(out.sink.bytes()));
}

/// Compares what two, three and eight workers write to what one does.
fn compare<R: Abort + Threads + Sync>(rt: &R, alloc: Global, one: &mut Transcript<MemorySink>) {
    let given = run_with(rt, alloc, 1, false, one);
    assert!(rt; given.0 == Status::BookRefused);
    for workers in &[2, 3, 8] {
        assert!(rt; 1 <= *workers && *workers <= 8);
        writes_the_same(rt, alloc, *workers, given, one.sink.bytes());
        writes_the_end(rt, alloc, *workers, one.sink.bytes());
    }
}

#[test]
fn equal_bytes(rt: HostRuntime) {
    let mut one = new_out(&rt, rt.alloc());
    compare(&rt, rt.alloc(), &mut one);
}

const TWO_VALUES: &[u8] = b"(value-triple 1)\n(value-triple 2)\n";

/// Runs a book by two workers.
fn run_gated<R: Threads + Sync, G: Gate>(
    rt: &R,
    alloc: Global,
    book: &[u8],
    gate: &G,
    out: &mut Transcript<MemorySink>,
) {
    let mut limits = Limits::usual();
    limits.workers = 2;
    let run = Run {
        rt,
        alloc,
        limits: &limits,
        last_only: false,
        gate,
    };
    run_text_gated(&run, book, out);
}

#[test]
fn jobs_meet(rt: HostRuntime) {
    let gate = Meeting::new();
    let mut out = new_out(&rt, rt.alloc());
    run_gated(&rt, rt.alloc(), TWO_VALUES, &gate, &mut out);
    assert!(rt; gate.met() == 2);
}

const TWO_CASES: &[u8] = b"(value-triple 1)
(def-gl-param-thm f :hyp (unsigned-byte-p 2 x) :concl (< x 4) :param-hyp (equal (logbitp 1 x) k)
  :param-bindings '((((k t)) ((x (:g-integer 0 1 2)))) (((k nil)) ((x (:g-integer 0 1 2)))))
  :cov-bindings '((x (:g-integer 0 1 2))))
";

const TWO_CASES_TOLD: &[u8] = b"VALUE 1\nPROVED F\nDONE proved=1 vacuous=0 refuted=0 undecided=0\n";

/// The value is task 0, the cover 1, and the cases are 2 and 3.
#[test]
fn parts_are_tasks(rt: HostRuntime) {
    let gate = Counting::new();
    let mut out = new_out(&rt, rt.alloc());
    run_gated(&rt, rt.alloc(), TWO_CASES, &gate, &mut out);
    for number in 0..4 {
        assert!(rt; gate.begun(number) == 1);
    }
    assert!(rt; gate.others() == 0);
    assert!(rt; out.sink.bytes() == TWO_CASES_TOLD);
}
