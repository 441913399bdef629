//! Calls of the outside that fail, in a book with every event and every verdict.

use super::rows::{Fails, first_lines, gives};
use std::process::Abort;
use std::test::Fail;
use std::thread::Threads;

const WORDS: &str = "--steps 50000 --cells 1000 --nodes 3000 --clauses 10 b";

const BOOK: &str = "(in-package \"ACL2\")\n\
(include-book \"centaur/gl/gl\" :dir :system)\n\
(defun down (n) (if (zp n) 0 (car (cons (down (- n 1)) n))))\n\
(mutual-recursion (defun ev (n) (if (zp n) t (od (- n 1)))) (defun od (n) (if (zp n) nil (ev (- n 1)))))\n\
(defun fib (n) (declare (xargs :measure (nfix n))) (if (zp n) 0 (if (equal n 1) 1 (+ (fib (- n 1)) (fib (- n 2))))))\n\
(defconst *c* (+ 2 3))\n\
(value-triple (down *c*))\n\
(value-triple (+ 170141183460469231731687303715884105727 1))\n\
(assert-event (ev 10))\n\
(assert-event (od 10))\n\
(memoize 'fib)\n\
(value-triple (fib 40))\n\
(unmemoize 'fib)\n\
(defun down (n) (if (zp n) 0 (car (cons (down (- n 1)) n))))\n\
(def-gl-thm proved :hyp (unsigned-byte-p 13 x) :concl (< x 8192) :g-bindings (auto-bindings (:nat x 13)))\n\
(def-gl-thm vacuous :hyp (and (unsigned-byte-p 4 x) (< x 0)) :concl (equal x 77) :g-bindings (auto-bindings (:nat x 4)))\n\
(def-gl-thm refuted :hyp (unsigned-byte-p 4 x) :concl (< x 15) :g-bindings (auto-bindings (:nat x 4)))\n\
(def-gl-thm uncovered :hyp (unsigned-byte-p 8 x) :concl (integerp x) :g-bindings (auto-bindings (:nat x 7)))\n\
(def-gl-thm clock :hyp (unsigned-byte-p 2 x) :concl (equal (down x) 0) :concl-clk 4 :g-bindings (auto-bindings (:nat x 2)))\n\
(def-gl-thm width :hyp (equal x 2) :concl (equal (* x 85070591730234615865843651857942052864) x) :g-bindings '((x 2)))\n\
(def-gl-thm steps :hyp (equal x 25) :concl (equal (fib x) 75025) :g-bindings '((x 25)))\n\
(def-gl-thm cells :hyp (equal x 2000) :concl (equal (down x) 0) :g-bindings '((x 2000)))\n\
(def-gl-thm nodes :hyp (and (unsigned-byte-p 16 x) (unsigned-byte-p 16 y)) :concl (equal (* x y) (* y x)) :g-bindings (auto-bindings (:mix (:nat x 16) (:nat y 16))))\n\
(gl-satlink-mode)\n\
(def-gl-thm clauses :hyp (and (unsigned-byte-p 8 x) (unsigned-byte-p 8 y)) :concl (equal (* x (+ y 1)) (+ (* x y) x)) :g-bindings (auto-bindings (:mix (:nat x 8) (:nat y 8))))\n\
(gl-bdd-mode)\n\
(value-triple x)\n\
(value-triple 1)\n\
";

/// Its transcript.
const LINES: &str = "\
DEFUN DOWN (ACL2-COUNT N)
DEFUN EV (ACL2-COUNT N)
DEFUN OD (ACL2-COUNT N)
DEFUN FIB (NFIX N)
DEFCONST *C* 5
VALUE 0
VALUE undecided width
ASSERT ok
ASSERT nil
MEMOIZE FIB
VALUE 102334155
UNMEMOIZE FIB
REDUNDANT DOWN
PROVED PROVED
VACUOUS VACUOUS
REFUTED REFUTED
  X = 15
UNDECIDED UNCOVERED uncovered X
UNDECIDED CLOCK clock concl
  X = 3
UNDECIDED WIDTH width concl
  X = 2
UNDECIDED STEPS steps concl
  X = 25
UNDECIDED CELLS cells concl
  X = 2000
UNDECIDED NODES nodes
MODE SAT
UNDECIDED CLAUSES clauses
MODE BDD
REFUSED 27 1 V6
DONE proved=1 vacuous=1 refuted=1 undecided=8
";

/// The number of the line of a theorem that ran out of nodes, and of one that ran out of clauses, from 1.
const STALLED: [u64; 2] = [27, 29];

/// How many stalls are put where this call of the sink fails: the last line that was begun has put its stall before it is
/// written.
fn stalls_by(sink_call: u64) -> u64 {
    let mut stalls: u64 = 0;
    for line in &STALLED {
        if *line <= sink_call {
            stalls = stalls.saturating_add(1);
        }
    }
    stalls
}

/// Runs the book where a call of the shelf and one of the sink fail. What is written are the first lines, so many.
fn fails<R: AllocGlobal + Threads + Sync + Abort>(
    rt: &R,
    calls: Fails,
    taken: usize,
    status: u8,
) -> Result<(), Fail> {
    let want = first_lines(rt.alloc(), LINES, taken)?;
    let want = (want.as_slice(), status, stalls_by(calls.1));
    gives(rt, (WORDS, BOOK, calls), want)
}

fn try_calls<R: AllocGlobal + Threads + Sync + Abort>(rt: &R) -> Result<(), Fail> {
    // the calls of the sink: each line, and the flush
    for taken in 0..33usize {
        fails(rt, (0, taken as u64 + 1), taken, 5)?;
    }
    fails(rt, (0, 34), 32, 2)?;
    // the calls of the shelf: open, the bytes, the end
    for call in 1..4 {
        fails(rt, (call, 0), 0, 4)?;
    }
    Ok(())
}

#[test]
fn each_call_fails_once(rt: HostRuntime) -> Result<(), Fail> {
    try_calls(&rt)
}
