//! The last theorem of a text, and the lines of a verdict on it.

ghost use Rattle.event_world.specs.Seen.{theorem_seen};
ghost use Rattle.book_state.specs.Answerable.{IsReadyTheorem};

use gl_base::limits::Limits;
use gl_book::{Last, last_theorem, verdict_lines};
use gl_decide::{Room, Verdict, decide_theorem};
use gl_logic::{Texts, World};
use shape_spec::{Mode, Thm, bit_count};
use std::alloc::{AllocError, Global};
use std::process::Abort;
use std::test::Fail;
use std::thread::Threads;

/// What a text has as its last theorem: the bytes of its name, its mode, how many indices it has, and how many definitions and
/// constants its world has, the ground definitions not counted.
type Found = (&'static str, Mode, u32, u64, u64);

/// A text, and what it has.
type Row = (&'static str, Option<Found>);

const ROWS: [Row; 21] = [
    ("", None),
    ("(value-triple 1)", None),
    (
        "(def-gl-thm a :hyp (unsigned-byte-p 3 x) :concl (< x 8) :g-bindings (auto-bindings (:nat x 3)))",
        Some(("A", Mode::Bdd, 4, 0, 0)),
    ),
    // the last one of three, a refuted one, which nothing decides
    (
        "(gl-satlink-mode)\n\
         (def-gl-thm a :hyp t :concl x :g-bindings '((x (:g-boolean . 0))))\n\
         (gl-param-mode)\n\
         (def-gl-thm b :hyp t :concl x :g-bindings '((x (:g-boolean . 0))))\n\
         (gl-bdd-mode)\n\
         (def-gl-thm c :hyp t :concl nil :g-bindings '((x 7)))",
        Some(("C", Mode::Bdd, 0, 0, 0)),
    ),
    // its world has nothing of what stands behind it
    (
        "(defun f (x) x) (defconst *a* (f 1)) (gl-satlink-mode)\n\
         (def-gl-thm a :hyp t :concl (equal (f x) x) :g-bindings '((x (:g-boolean . 0))))\n\
         (gl-bdd-mode) (defun g (x) (f x)) (defconst *b* 2)\n\
         (mutual-recursion (defun ev (n) (if (zp n) t (od (- n 1)))) (defun od (n) (if (zp n) nil (ev (- n 1)))))\n\
         (memoize 'g) (value-triple (g 2)) (assert-event nil)",
        Some(("A", Mode::Sat, 1, 1, 1)),
    ),
    // a redundant theorem is none, whatever the mode there
    (
        "(gl-param-mode) (def-gl-thm a :hyp t :concl x :g-bindings '((x (:g-boolean . 0))))\n\
         (gl-satlink-mode) (def-gl-thm a :hyp t :concl x :g-bindings '((x (:g-boolean . 0))))",
        Some(("A", Mode::Param, 1, 0, 0)),
    ),
    // nor is a theorem by cases
    (
        "(def-gl-param-thm p :hyp (booleanp x) :concl t :param-hyp (equal x k) :param-bindings '((((k t)) ((x (:g-boolean . 0)))) (((k nil)) ((x (:g-boolean . 0))))) :cov-bindings '((x (:g-boolean . 0))))",
        None,
    ),
    (
        "(def-gl-thm a :hyp t :concl x :g-bindings '((x (:g-boolean . 0))))\n\
         (def-gl-param-thm p :hyp (booleanp x) :concl t :param-hyp (equal x k) :param-bindings '((((k t)) ((x (:g-boolean . 0)))) (((k nil)) ((x (:g-boolean . 0))))) :cov-bindings '((x (:g-boolean . 0))))",
        Some(("A", Mode::Bdd, 1, 0, 0)),
    ),
    // refused: in front, the theorem itself, behind it, an end inside a list, a stray end
    (
        "(value-triple x)\n(def-gl-thm a :hyp t :concl x :g-bindings '((x (:g-boolean . 0))))",
        None,
    ),
    (
        "(def-gl-thm a :hyp t :concl x :g-bindings '((x 1 2)))",
        None,
    ),
    (
        "(def-gl-thm a :hyp t :concl x :g-bindings '((x (:g-boolean . 0))))\n(def-gl-thm a :hyp t :concl t :g-bindings '((x (:g-boolean . 0))))",
        None,
    ),
    (
        "(def-gl-thm a :hyp t :concl x :g-bindings '((x (:g-boolean . 0))))\n(value-triple 1",
        None,
    ),
    (
        "(def-gl-thm a :hyp t :concl x :g-bindings '((x (:g-boolean . 0))))\n)",
        None,
    ),
    // a constant without a value
    (
        "(def-gl-thm a :hyp t :concl x :g-bindings '((x (:g-boolean . 0))))\n(defconst *w* (+ 170141183460469231731687303715884105727 1))",
        None,
    ),
    // a value without one refuses nothing
    (
        "(def-gl-thm a :hyp t :concl x :g-bindings '((x (:g-boolean . 0))))\n(value-triple (+ 170141183460469231731687303715884105727 1))",
        Some(("A", Mode::Bdd, 1, 0, 0)),
    ),
    // books: GL's own, and others
    (
        "(in-package \"ACL2\")\n(include-book \"centaur/gl/gl\" :dir :system)\n(def-gl-thm a :hyp t :concl x :g-bindings '((x (:g-boolean . 0))))",
        Some(("A", Mode::Bdd, 1, 0, 0)),
    ),
    (
        "(def-gl-thm a :hyp t :concl x :g-bindings '((x (:g-boolean . 0))))\n(include-book \"other\")",
        None,
    ),
    // terms by constants and by definitions in front
    (
        "(defconst *n* 5) (defun f (x) (< x *n*)) (def-gl-thm a :hyp (unsigned-byte-p 2 x) :concl (f x) :g-bindings (auto-bindings (:nat x 2)))",
        Some(("A", Mode::Bdd, 3, 1, 1)),
    ),
    ("(in-package \"ACL2\") ; nothing else", None),
    ("(defun f (x) x) (f 1)", None),
    (
        "(gl-satlink-mode) (def-gl-thm a :hyp t :concl t :g-bindings '((x (:g-integer 0 2 4)) (y (:g-boolean . 1))))",
        Some(("A", Mode::Sat, 4, 0, 0)),
    ),
];

const THEOREM: &str = "(def-gl-thm a :hyp t :concl x :g-bindings '((x (:g-boolean . 0))))";

/// How many definitions a world has with none of its own.
fn ground_count(alloc: Global) -> u64 {
    match last_theorem(alloc, THEOREM.as_bytes(), &Limits::usual()) {
        Ok(Last::Found(world, _, _)) => world.count(),
        _ => 0,
    }
}

/// Whether a text has this as its last theorem.
fn has(alloc: Global, text: &[u8], ground: u64, want: Option<Found>) -> bool {
    match last_theorem(alloc, text, &Limits::usual()) {
        Ok(Last::Found(world, thm, texts)) => match want {
            Some(found) => is_found(&world, &thm, &texts, ground, found),
            None => false,
        },
        Ok(Last::None) => want.is_none(),
        Err(_) => false,
    }
}

fn is_found(world: &World, thm: &Thm, texts: &Texts, ground: u64, want: Found) -> bool {
    let (name, mode, width, definitions, constants) = want;
    texts.text(thm.name) == name.as_bytes()
        && thm.mode == mode
        && bit_count(&thm.bindings) == width
        && world.count() == ground.saturating_add(definitions)
        && world.constant_count() == constants
}

fn try_rows<R: AllocGlobal + Abort>(rt: &R) {
    let alloc = rt.alloc();
    let ground = ground_count(alloc);
    for (text, want) in ROWS.iter().copied() {
        assert!(rt; has(alloc, text.as_bytes(), ground, want), "{text}");
    }
}

#[test]
fn last_theorems(rt: HostRuntime) {
    try_rows(&rt)
}

/// A theorem, and blanks up to so many bytes.
fn filled(alloc: Global, count: usize) -> Result<Vec<u8>, AllocError> {
    let mut text = Vec::new(alloc);
    text.extend_from_slice(THEOREM.as_bytes())?;
    text.resize(count, b' ')?;
    Ok(text)
}

#[test]
fn long_texts(rt: HostRuntime) -> Result<(), Fail> {
    let alloc = rt.alloc();
    let ground = ground_count(alloc);
    let want = Some(("A", Mode::Bdd, 1, 0, 0));
    assert!(rt; has(alloc, &filled(alloc, 4_194_304)?, ground, want));
    assert!(rt; has(alloc, &filled(alloc, 4_194_305)?, ground, None));
    Ok(())
}

/// Definitions that texts below begin with.
const DEFINITIONS: &str = "(defun down (n) (if (zp n) 0 (car (cons (down (- n 1)) n))))\n\
(defun fib (n) (declare (xargs :measure (nfix n))) (if (zp n) 0 (if (equal n 1) 1 (+ (fib (- n 1)) (fib (- n 2))))))\n";

/// A text, and the lines of the verdict on its last theorem.
const VERDICTS: [(&str, &str); 10] = [
    (
        "(def-gl-thm proved :hyp (unsigned-byte-p 13 x) :concl (< x 8192) :g-bindings (auto-bindings (:nat x 13)))",
        "PROVED PROVED\n",
    ),
    (
        "(def-gl-thm vacuous :hyp (and (unsigned-byte-p 4 x) (< x 0)) :concl (equal x 77) :g-bindings (auto-bindings (:nat x 4)))",
        "VACUOUS VACUOUS\n",
    ),
    (
        "(def-gl-thm refuted :hyp (and (unsigned-byte-p 4 x) (booleanp b) (symbolp s) (equal s 'k)) :concl (if b (< x 15) t) :g-bindings '((s k) (x (:g-integer 0 1 2 3 4)) (b (:g-boolean . 5))))",
        "REFUTED REFUTED\n  S = K\n  X = 15\n  B = T\n",
    ),
    (
        "(def-gl-thm uncovered :hyp (unsigned-byte-p 8 x) :concl (integerp x) :g-bindings (auto-bindings (:nat x 7)))",
        "UNDECIDED UNCOVERED uncovered X\n",
    ),
    (
        "(def-gl-thm clock :hyp (unsigned-byte-p 2 x) :concl (equal (down x) 0) :concl-clk 4 :g-bindings (auto-bindings (:nat x 2)))",
        "UNDECIDED CLOCK clock concl\n  X = 3\n",
    ),
    (
        "(def-gl-thm width :hyp (equal x 2) :concl (equal (* x 85070591730234615865843651857942052864) x) :g-bindings '((x 2)))",
        "UNDECIDED WIDTH width concl\n  X = 2\n",
    ),
    (
        "(def-gl-thm steps :hyp (equal x 25) :concl (equal (fib x) 75025) :g-bindings '((x 25)))",
        "UNDECIDED STEPS steps concl\n  X = 25\n",
    ),
    (
        "(def-gl-thm cells :hyp (equal x 2000) :concl (equal (down x) 0) :g-bindings '((x 2000)))",
        "UNDECIDED CELLS cells concl\n  X = 2000\n",
    ),
    (
        "(def-gl-thm nodes :hyp (and (unsigned-byte-p 16 x) (unsigned-byte-p 16 y)) :concl (equal (* x y) (* y x)) :g-bindings (auto-bindings (:mix (:nat x 16) (:nat y 16))))",
        "UNDECIDED NODES nodes\n",
    ),
    (
        "(gl-satlink-mode) (def-gl-thm clauses :hyp (and (unsigned-byte-p 8 x) (unsigned-byte-p 8 y)) :concl (equal (* x (+ y 1)) (+ (* x y) x)) :g-bindings (auto-bindings (:mix (:nat x 8) (:nat y 8))))",
        "UNDECIDED CLAUSES clauses\n",
    ),
];

/// Limits below which each verdict above comes.
fn low_limits() -> Limits {
    let mut limits = Limits::usual();
    limits.steps = 50_000;
    limits.cells = 1000;
    limits.nodes = 3000;
    limits.clauses = 10;
    limits
}

/// The lines of the verdict on a theorem, behind a sign.
fn lines_of<R: Threads + Sync>(
    rt: &R,
    alloc: Global,
    world: &World,
    thm: &Thm,
    texts: &Texts,
) -> Result<Vec<u8>, Fail>
    requires { IsReadyTheorem world.now.definitions (theorem_seen thm.now) }
{
    let mut room = Room::Empty;
    let verdict = decide_theorem(rt, alloc, world, thm, &low_limits(), &mut room);
    let mut lines = Vec::new(alloc);
    lines.push(b'>')?;
    verdict_lines(alloc, thm, &verdict, texts, &mut lines)?;
    Ok(lines)
}

/// The lines of the verdict on the last theorem of a text, behind a sign.
fn lines_for<R: AllocGlobal + Threads + Sync>(rt: &R, text: &str) -> Result<Vec<u8>, Fail> {
    let alloc = rt.alloc();
    let mut whole = String::from_str(alloc, DEFINITIONS)?;
    whole.push_str(text)?;
    match last_theorem(alloc, whole.as_bytes(), &low_limits())? {
        Last::Found(world, thm, texts) => lines_of(rt, alloc, &world, &thm, &texts),
        Last::None => Ok(Vec::new(alloc)),
    }
}

fn try_verdicts<R: AllocGlobal + Threads + Sync + Abort>(rt: &R) -> Result<(), Fail> {
    for (text, want) in VERDICTS.iter().copied() {
        let given = lines_for(rt, text)?;
        let mut wanted = Vec::new(rt.alloc());
        wanted.push(b'>')?;
        wanted.extend_from_slice(want.as_bytes())?;
        assert_eq!(rt; given.as_slice(), wanted.as_slice(), "{text}");
    }
    Ok(())
}

#[test]
fn lines_of_verdicts(rt: HostRuntime) -> Result<(), Fail> {
    try_verdicts(&rt)
}

/// No decision has to be short of memory for the lines of such a verdict.
#[test]
fn lines_of_memory(rt: HostRuntime) -> Result<(), Fail> {
    let alloc = rt.alloc();
    let mut lines = Vec::new(alloc);
    if let Last::Found(_, thm, texts) = last_theorem(alloc, THEOREM.as_bytes(), &Limits::usual())? {
        verdict_lines(alloc, &thm, &Verdict::Memory, &texts, &mut lines)?;
    }
    assert_eq!(rt; lines.as_slice(), b"UNDECIDED A memory\n".as_slice());
    Ok(())
}
