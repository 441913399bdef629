//! Texts of proofs: they are verified; each outcome with its status and its stall; words; calls that fail.

use super::rows::{
    FaultRow, Given, NONE_FAILS, USAGE, all_give, each_fault_gives, gives, outcome, outcome_over,
};
use std::alloc::{AllocError, Global};
use std::process::Abort;
use std::test::Fail;
use std::thread::Threads;

/// Sums by exclusive ors.
const XOR_SUM: &str = "(gl-satlink-mode)
(def-gl-thm xor-sum :hyp (and (unsigned-byte-p 8 x) (unsigned-byte-p 8 y))
  :concl (equal (logxor x y) (- (+ x y) (* 2 (logand x y))))
  :g-bindings (auto-bindings (:mix (:nat x 8) (:nat y 8))))
";

/// Books whose last theorem is shown: that one; one that nothing meets; one whose conclusion is T; one of 128 indices; one
/// behind which others stand that are no theorems of their own.
const SHOWN: [&str; 5] = [
    XOR_SUM,
    "(gl-satlink-mode) (def-gl-thm none :hyp (and (unsigned-byte-p 4 x) (< x 0)) :concl (equal x 77) :g-bindings (auto-bindings (:nat x 4)))",
    "(gl-satlink-mode) (def-gl-thm t1 :hyp (booleanp x) :concl t :g-bindings '((x (:g-boolean . 0))))",
    "(gl-satlink-mode) (def-gl-thm back :hyp (signed-byte-p 128 x) :concl (equal (lognot (lognot x)) x) :g-bindings `((x ,(g-int 0 1 128))))",
    "(gl-satlink-mode) (defun f (x) (+ x x))
     (def-gl-thm twice :hyp (unsigned-byte-p 6 x) :concl (equal (f x) (ash x 1)) :g-bindings (auto-bindings (:nat x 6)))
     (defun g (x) (f x)) (value-triple (g 2)) (gl-bdd-mode)
     (def-gl-thm twice :hyp (unsigned-byte-p 6 x) :concl (equal (f x) (ash x 1)) :g-bindings (auto-bindings (:nat x 6)))
     (def-gl-param-thm p :hyp (booleanp x) :concl (booleanp x) :param-hyp (equal x k) :param-bindings '((((k t)) ((x (:g-boolean . 0)))) (((k nil)) ((x (:g-boolean . 0))))) :cov-bindings '((x (:g-boolean . 0))))
     (assert-event nil)",
];

/// What a run over a book gives.
fn text_of<R: AllocGlobal + Threads + Sync>(
    rt: &R,
    words: &str,
    book: &str,
) -> Result<Given, Fail> {
    let bytes = book.as_bytes().to_vec(rt.alloc())?;
    outcome(rt, words, bytes, 4_000_000, NONE_FAILS)
}

/// The formula `c` and the log `l`.
fn texts(alloc: Global, cnf: &[u8], log: &[u8]) -> Result<Vec<(String, Vec<u8>)>, AllocError> {
    let mut texts = Vec::new(alloc);
    texts.push((String::from_str(alloc, "c")?, cnf.to_vec(alloc)?))?;
    texts.push((String::from_str(alloc, "l")?, log.to_vec(alloc)?))?;
    Ok(texts)
}

/// Compares the judgement on both texts, by these words.
fn is_verified<R: AllocGlobal + Threads + Sync + Abort>(
    rt: &R,
    words: &str,
    cnf: &[u8],
    log: &[u8],
) -> Result<(), Fail> {
    let given = outcome_over(rt, words, texts(rt.alloc(), cnf, log)?, 1000, NONE_FAILS)?;
    assert_eq!(rt; given.bytes(), b"VERIFIED\n".as_slice(), "{words}");
    assert_eq!(rt; given.code, 0, "{words}");
    Ok(())
}

/// Both texts of a book are written with status 0 and no stall, are the same for 8 workers, and are verified by 1 and by 8.
fn is_shown<R: AllocGlobal + Threads + Sync + Abort>(rt: &R, book: &str) -> Result<(), Fail> {
    let cnf = text_of(rt, "--proof cnf b", book)?;
    let log = text_of(rt, "--proof log b", book)?;
    assert_eq!(rt;
        (cnf.code, cnf.stalls, log.code, log.stalls),
        (0, 0, 0, 0),
        "{book}"
    );
    let again = text_of(rt, "--workers 8 b --proof=cnf", book)?;
    assert!(rt; again.bytes() == cnf.bytes(), "{book}");
    let again = text_of(rt, "b --proof=log --workers 8", book)?;
    assert!(rt; again.bytes() == log.bytes(), "{book}");
    is_verified(rt, "lrat c l", cnf.bytes(), log.bytes())?;
    is_verified(rt, "lrat --workers 8 c l", cnf.bytes(), log.bytes())
}

fn try_shown<R: AllocGlobal + Threads + Sync + Abort>(rt: &R) -> Result<(), Fail> {
    for book in SHOWN.iter().copied() {
        is_shown(rt, book)?;
    }
    Ok(())
}

#[test]
fn written_texts_are_verified(rt: HostRuntime) -> Result<(), Fail> {
    try_shown(&rt)
}

/// How many lines behind the first one have three literals, and the 0 that ends them.
fn clauses_of_three(text: &str) -> usize {
    let mut count: usize = 0;
    for line in text.lines().skip(1) {
        if line.split_whitespace().count() == 4 {
            count = count.saturating_add(1);
        }
    }
    count
}

#[test]
fn clause_of_three_literals(rt: HostRuntime) -> Result<(), Fail> {
    let cnf = text_of(&rt, "--proof cnf b", XOR_SUM)?;
    let text = str::from_utf8(cnf.bytes())?;
    assert!(rt; text.starts_with("p cnf "));
    assert!(rt; clauses_of_three(text) > 0);
    Ok(())
}

/// Each outcome without a text, by both parts.
const OUTCOMES: &str = r#"
== b --proof log
=> 3
NOPROOF
== --proof cnf b
(value-triple 1)
=> 3
NOPROOF
== --proof cnf b
(in-package "ACL2")
(include-book "centaur/gl/gl" :dir :system)
(defun fast-logcount-32 (v)
  (let* ((v (- v (logand (ash v -1) #x55555555)))
         (v (+ (logand v #x33333333) (logand (ash v -2) #x33333333))))
    (ash (logand (* (logand (+ v (ash v -4)) #xF0F0F0F) #x1010101) #xffffffff) -24)))
(def-gl-thm fast-logcount-32-correct
  :hyp (unsigned-byte-p 32 x)
  :concl (equal (fast-logcount-32 x) (logcount x))
  :g-bindings `((x ,(g-int 0 1 33))))
=> 3
NOPROOF
== --proof log b
(gl-param-mode)
(def-gl-thm f :hyp (unsigned-byte-p 3 x) :concl (< x 7) :g-bindings (auto-bindings (:nat x 3)))
=> 3
NOPROOF
== --proof cnf b
(gl-satlink-mode)
(def-gl-thm f :hyp (equal x 3) :concl (equal x 3) :g-bindings '((x 3)))
=> 3
NOPROOF
== --proof cnf b
(gl-satlink-mode)
(def-gl-thm f :hyp (unsigned-byte-p 3 x) :concl (< x 7) :g-bindings (auto-bindings (:nat x 3)))
(value-triple x)
=> 3
NOPROOF
== --proof cnf b
(gl-satlink-mode)
(def-gl-thm f :hyp (unsigned-byte-p 3 x) :concl (< x 7) :g-bindings (auto-bindings (:nat x 3)))
(value-triple (car '(1))
=> 3
NOPROOF
== --proof log b
(gl-satlink-mode)
(def-gl-thm f :hyp (unsigned-byte-p 3 x) :concl (< x 7) :g-bindings (auto-bindings (:nat x 3)))
(include-book "other")
=> 3
NOPROOF
== --proof log b
(gl-satlink-mode)
(def-gl-thm f :hyp (unsigned-byte-p 3 x) :concl (< x 7) :g-bindings (auto-bindings (:nat x 3)))
(defconst *w* (+ 170141183460469231731687303715884105727 1))
=> 3
NOPROOF
== --proof cnf b
(gl-satlink-mode)
(def-gl-thm f :hyp (unsigned-byte-p 3 x) :concl (< x 7) :g-bindings (auto-bindings (:nat x 3)))
(gl-bdd-mode)
(def-gl-thm g :hyp (unsigned-byte-p 3 x) :concl (< x 7) :g-bindings (auto-bindings (:nat x 3)))
=> 3
NOPROOF
== --proof cnf b
(gl-satlink-mode)
(def-gl-param-thm p :hyp (booleanp x) :concl x :param-hyp (equal x k) :param-bindings '((((k t)) ((x (:g-boolean . 0)))) (((k nil)) ((x (:g-boolean . 0))))) :cov-bindings '((x (:g-boolean . 0))))
=> 3
NOPROOF
== --proof cnf b
(gl-satlink-mode)
(def-gl-thm f :hyp (unsigned-byte-p 3 x) :concl (< x 7) :g-bindings (auto-bindings (:nat x 3)))
=> 1
REFUTED F
  X = 7
== --proof log --workers 8 b
(gl-satlink-mode)
(def-gl-thm f :hyp (unsigned-byte-p 3 x) :concl (< x 7) :g-bindings (auto-bindings (:nat x 3)))
(gl-bdd-mode)
(def-gl-thm f :hyp (unsigned-byte-p 3 x) :concl (< x 7) :g-bindings (auto-bindings (:nat x 3)))
(def-gl-param-thm p :hyp (booleanp x) :concl x :param-hyp (equal x k) :param-bindings '((((k t)) ((x (:g-boolean . 0)))) (((k nil)) ((x (:g-boolean . 0))))) :cov-bindings '((x (:g-boolean . 0))))
(value-triple (+ 170141183460469231731687303715884105727 1))
=> 1
REFUTED F
  X = 7
== --proof cnf b
(gl-satlink-mode)
(def-gl-thm f :hyp (unsigned-byte-p 3 x) :concl (< x 8) :g-bindings `((x ,(g-int 0 1 3))))
=> 3
UNDECIDED F uncovered X
== --proof cnf b
(gl-satlink-mode)
(defun down (n) (if (zp n) 0 (down (- n 1))))
(def-gl-thm low :hyp (unsigned-byte-p 2 x) :concl (equal (down x) 0) :concl-clk 4 :g-bindings `((x ,(g-int 0 1 3))))
=> 3
UNDECIDED LOW clock concl
  X = 3
== --proof log b
(gl-satlink-mode)
(def-gl-thm back :hyp (signed-byte-p 128 x) :concl (equal (- (+ x 1) 1) x) :g-bindings `((x ,(g-int 0 1 128))))
=> 3
UNDECIDED BACK width concl
  X = 170141183460469231731687303715884105727
== --steps 1000 --proof cnf b
(gl-satlink-mode)
(defun fib (n) (declare (xargs :measure (nfix n))) (if (zp n) 0 (if (equal n 1) 1 (+ (fib (- n 1)) (fib (- n 2))))))
(def-gl-thm slow :hyp (and (equal x 25) (booleanp b) b) :concl (equal (fib x) 75025) :g-bindings '((x 25) (b (:g-boolean . 0))))
=> 3
UNDECIDED SLOW steps concl
  X = 25
  B = T
== --cells 1000 --proof cnf b
(gl-satlink-mode)
(defun mk (n) (if (zp n) nil (cons n (mk (- n 1)))))
(def-gl-thm c :hyp (and (equal x 2000) (booleanp b) b) :concl (equal (len (mk x)) 2000) :g-bindings '((x 2000) (b (:g-boolean . 0))))
=> 3
UNDECIDED C cells concl
  X = 2000
  B = T
== --nodes 1000 --proof cnf b
(gl-satlink-mode)
(def-gl-thm times :hyp (and (unsigned-byte-p 16 x) (unsigned-byte-p 16 y)) :concl (equal (* x y) (* y x)) :g-bindings (auto-bindings (:mix (:nat x 16) (:nat y 16))))
=> 3
UNDECIDED TIMES nodes
== --nodes 100 --enum-bits 16 --proof log b
(gl-satlink-mode)
(def-gl-thm times :hyp (and (unsigned-byte-p 5 x) (unsigned-byte-p 5 y)) :concl (equal (* x y) (* y x)) :g-bindings (auto-bindings (:mix (:nat x 5) (:nat y 5))))
=> 3
UNDECIDED TIMES nodes
== --clauses 1 --enum-bits 16 --proof cnf b
(gl-satlink-mode)
(def-gl-thm dist :hyp (and (unsigned-byte-p 5 x) (unsigned-byte-p 5 y))
  :concl (equal (* x (+ y 1)) (+ (* x y) x))
  :g-bindings (auto-bindings (:mix (:nat x 5) (:nat y 5))))
=> 3
UNDECIDED DIST clauses
"#;

#[test]
fn outcomes_without_a_text(rt: HostRuntime) -> Result<(), Fail> {
    all_give(&rt, OUTCOMES)
}

/// A theorem, and blanks up to so many bytes.
fn filled(alloc: Global, count: usize) -> Result<Vec<u8>, AllocError> {
    let mut text = Vec::new(alloc);
    text.extend_from_slice(REFUTED.as_bytes())?;
    text.resize(count, b' ')?;
    Ok(text)
}

/// A book that is too long has no proof.
#[test]
fn long_books(rt: HostRuntime) -> Result<(), Fail> {
    let alloc = rt.alloc();
    let given = outcome(
        &rt,
        "--proof cnf b",
        filled(alloc, 4_194_304)?,
        100,
        NONE_FAILS,
    )?;
    assert_eq!(rt; given.bytes(), b"REFUTED F\n  X = 7\n".as_slice());
    assert_eq!(rt; given.code, 1);
    let given = outcome(
        &rt,
        "--proof cnf b",
        filled(alloc, 4_194_305)?,
        100,
        NONE_FAILS,
    )?;
    assert_eq!(rt; given.bytes(), b"NOPROOF\n".as_slice());
    assert_eq!(rt; given.code, 3);
    Ok(())
}

const REFUTED: &str =
    "(gl-satlink-mode) (def-gl-thm f :hyp (unsigned-byte-p 3 x) :concl (< x 7) :g-bindings (auto-bindings (:nat x 3)))";

const STALLED: &str =
    "(gl-satlink-mode) (def-gl-thm times :hyp (and (unsigned-byte-p 5 x) (unsigned-byte-p 5 y)) :concl (equal (* x y) (* y x)) :g-bindings (auto-bindings (:mix (:nat x 5) (:nat y 5))))";

const LINES: &str = "REFUTED F\n  X = 7\n";

/// Words, what is written, and the code of the status, over one book `b`.
const WORDS: [FaultRow; 21] = [
    ("--proof", 0, 0, USAGE, 64),
    ("--proof cnf", 0, 0, USAGE, 64),
    ("--proof=log", 0, 0, USAGE, 64),
    ("--proof b", 0, 0, USAGE, 64),
    ("--proof xml b", 0, 0, USAGE, 64),
    ("--proof both b", 0, 0, USAGE, 64),
    ("--proof CNF b", 0, 0, USAGE, 64),
    ("--proof cnf|log b", 0, 0, USAGE, 64),
    ("--proof= b", 0, 0, USAGE, 64),
    ("--proof cnf --generate 3", 0, 0, USAGE, 64),
    ("--generate 3 --proof=log", 0, 0, USAGE, 64),
    ("--proof cnf --proof log b", 0, 0, USAGE, 64),
    ("--proof cnf --proof cnf b", 0, 0, USAGE, 64),
    ("--proof cnf b b", 0, 0, USAGE, 64),
    ("--proof cnf --workers 9 b", 0, 0, USAGE, 64),
    ("lrat --proof cnf b b", 0, 0, USAGE, 64),
    ("--proof cnf b", 0, 0, LINES, 1),
    ("--proof=log b", 0, 0, LINES, 1),
    ("b --proof cnf", 0, 0, LINES, 1),
    ("--steps 99999 b --proof=cnf --enum-bits=0", 0, 0, LINES, 1),
    ("--proof log lrat", 0, 0, "", 4),
];

#[test]
fn words_with_a_part(rt: HostRuntime) -> Result<(), Fail> {
    each_fault_gives(&rt, REFUTED, &WORDS)
}

/// The calls of the shelf are the opening, the bytes and the end, those of the sink each line and the flush.
const FAULTS: [FaultRow; 8] = [
    ("--proof cnf b", 1, 0, "", 4),
    ("--proof cnf b", 2, 0, "", 4),
    ("--proof cnf b", 3, 0, "", 4),
    ("--proof cnf b", 4, 4, LINES, 1),
    ("--proof cnf b", 0, 1, "", 5),
    ("--proof cnf b", 0, 2, "REFUTED F\n", 5),
    ("--proof cnf b", 0, 3, LINES, 5),
    ("--proof cnf none", 0, 0, "", 4),
];

#[test]
fn calls_that_fail(rt: HostRuntime) -> Result<(), Fail> {
    each_fault_gives(&rt, REFUTED, &FAULTS)
}

/// Where no proof is due, and where one is written.
const OTHER_FAULTS: [FaultRow; 2] = [
    ("--proof cnf b", 0, 1, "", 5),
    ("--proof cnf b", 0, 2, "NOPROOF\n", 5),
];

#[test]
fn line_that_is_not_taken(rt: HostRuntime) -> Result<(), Fail> {
    each_fault_gives(&rt, "", &OTHER_FAULTS)
}

#[test]
fn text_that_is_not_taken(rt: HostRuntime) -> Result<(), Fail> {
    let cnf = text_of(&rt, "--proof cnf b", XOR_SUM)?;
    gives(&rt, ("--proof cnf b", XOR_SUM, (0, 1)), (b"", 5, 0))?;
    gives(&rt, ("--proof cnf b", XOR_SUM, (0, 2)), (cnf.bytes(), 5, 0))
}

/// The stall stands behind the others before the line of it is written.
#[test]
fn stall_of_a_line_that_is_not_taken(rt: HostRuntime) -> Result<(), Fail> {
    let words = "--nodes 100 --proof cnf b";
    gives(
        &rt,
        (words, STALLED, NONE_FAILS),
        (b"UNDECIDED TIMES nodes\n", 3, 1),
    )?;
    gives(&rt, (words, STALLED, (0, 1)), (b"", 5, 1))?;
    gives(&rt, (words, STALLED, (1, 0)), (b"", 4, 0))
}
