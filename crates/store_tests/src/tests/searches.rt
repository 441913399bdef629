//! What no clause says: that calls succeed with ample memory, and what they answer on functions whose truth is known from
//! outside.

ghost use Rattle.std.specs.Prelude.{◌≡◌, ◌<◌, length};

use bfr_store::{Bits, Decision, Edge};
use cnf_rup::{Clause, ClauseBook};
use gl_logic::Assignment;
use sat_core::AigSat;
use std::alloc::Global;
use std::process::Abort;

fn variable(rt: &impl Abort, store: &mut AigSat, k: u32) -> Edge {
    assert!(rt; k < 1_000_000);
    store.var(k).expect(rt, "no room for a variable")
}

fn conjunction(rt: &impl Abort, store: &mut AigSat, x: Edge, y: Edge) -> Edge {
    assert!(rt; store.is_live(x) && store.is_live(y));
    store.and(x, y).expect(rt, "no room for a conjunction")
}

fn choice(rt: &impl Abort, store: &mut AigSat, t: Edge, x: Edge, y: Edge) -> Edge {
    assert!(rt; store.is_live(t) && store.is_live(x) && store.is_live(y));
    store.ite(t, x, y).expect(rt, "no room for a choice")
}

fn complement(rt: &impl Abort, store: &AigSat, x: Edge) -> Edge {
    assert!(rt; store.is_live(x));
    store.not(x)
}

fn disjunction(rt: &impl Abort, store: &mut AigSat, x: Edge, y: Edge) -> Edge {
    let not_x = complement(rt, store, x);
    let not_y = complement(rt, store, y);
    let neither = conjunction(rt, store, not_x, not_y);
    complement(rt, store, neither)
}

fn difference(rt: &impl Abort, store: &mut AigSat, x: Edge, y: Edge) -> Edge {
    let not_y = complement(rt, store, y);
    choice(rt, store, x, not_y, y)
}

/// Decides an edge. An assignment that is handed out makes the edge true, and any other answer leaves all false.
fn decide(rt: &impl Abort, alloc: Global, store: &mut AigSat, e: Edge) -> Decision {
    assert!(rt; store.is_live(e));
    let mut out = Assignment::new(alloc, store.width()).expect(rt, "no memory");
    let count = store.count();
    let decision = store.decide(e, &mut out).expect(rt, "no memory");
    assert!(rt; store.is_live(e));
    let value = store.value(e, &out);
    assert!(rt; value == (decision == Decision::Sometimes), "{decision:?}");
    assert!(rt; store.count() == count && store.is_spent() == (decision == Decision::Spent));
    decision
}

/// Whether the clause is the one that a wrong search learns.
fn is_filler(clause: &Clause) -> bool {
    clause.as_slice() == [1, -1].as_slice()
}

/// Whether each clause that was learned says something.
fn is_earnest(rt: &impl Abort, book: &ClauseBook) -> bool {
    for id in book.first_count()..book.count() {
        assert!(rt; id < book.count());
        if is_filler(book.clause(id + 1)) {
            return false;
        }
    }
    true
}

/// How many of the clauses that were learned count: those of two literals or more, with three hints or more.
fn counted(rt: &impl Abort, book: &ClauseBook) -> u32 {
    let mut count = 0u32;
    for id in book.first_count()..book.count() {
        assert!(rt; id < book.count());
        let entry = book.entry(id + 1);
        if entry.clause.len() > 1 && entry.hints.len() > 2 {
            count = count.saturating_add(1);
        }
    }
    count
}

/// Takes the book of the last decision. How many clauses that count it learned, and whether the empty one is in it.
fn taken(rt: &impl Abort, store: &mut AigSat) -> (u32, bool) {
    let book = store.take_book().expect(rt, "no book");
    assert!(rt; store.take_book().is_none() && !store.is_spent());
    assert!(rt; is_earnest(rt, &book));
    (counted(rt, &book), book.empty_shown())
}

/// The next number of a sequence that looks random (xorshift).
fn next(seed: &mut u64) -> u32 {
    let mut x = *seed;
    x ^= x << 13;
    x ^= x >> 7;
    x ^= x << 17;
    *seed = x;
    ((x >> 33) & 0xffff_ffff) as u32
}

/// A random literal of so many variables.
fn random_literal(rt: &impl Abort, store: &mut AigSat, variables: u32, seed: &mut u64) -> Edge {
    let number = next(seed);
    assert!(rt; 0 < variables);
    let edge = variable(rt, store, number / 2 % variables);
    if number % 2 == 0 {
        edge
    } else {
        complement(rt, store, edge)
    }
}

/// A conjunction of random clauses of three literals.
fn formula(
    rt: &impl Abort,
    store: &mut AigSat,
    variables: u32,
    clauses: u32,
    seed: &mut u64,
) -> Edge {
    let mut all = store.constant(true);
    for _ in 0..clauses {
        let mut clause = store.constant(false);
        for _ in 0..3 {
            let literal = random_literal(rt, store, variables, seed);
            clause = disjunction(rt, store, clause, literal);
        }
        all = conjunction(rt, store, all, clause);
    }
    all
}

/// Decides a random formula.
fn try_formula(rt: &impl Abort, alloc: Global, row: (u32, u32, u64, bool)) {
    let (variables, clauses, number, satisfiable) = row;
    let mut store = AigSat::new(alloc, 100_000, 100_000).expect(rt, "no memory");
    let mut seed = 88_172_645_463_325_252u64.wrapping_mul(number);
    let e = formula(rt, &mut store, variables, clauses, &mut seed);
    let decision = decide(rt, alloc, &mut store, e);
    let expected = if satisfiable {
        Decision::Sometimes
    } else {
        Decision::Never
    };
    let (learned, empty) = taken(rt, &mut store);
    let well = decision == expected && empty != satisfiable && learned < 1_000;
    assert!(rt; well, "{variables} {clauses} {learned} {decision:?}");
}

/// Random formulas, by their count of variables, their count of clauses and a seed. Whether they can be satisfied is the
/// answer of MiniSat 2.2 and of CaDiCaL 1.5 on the same clauses.
#[test]
fn random_formulas(rt: HostRuntime) {
    let rows = [
        (20, 91, 3, false),
        (20, 85, 5, false),
        (24, 100, 7, true),
        (28, 122, 9, true),
        (32, 134, 11, true),
        (36, 158, 13, false),
        (40, 168, 15, false),
        (44, 190, 17, false),
        (48, 200, 19, false),
        (52, 226, 21, true),
        (56, 236, 23, true),
        (60, 262, 25, false),
        (60, 246, 27, true),
        (50, 300, 29, false),
    ];
    for row in rows {
        try_formula(&rt, rt.alloc(), row);
    }
}

/// Each of so many pigeons in one hole, and no two in the same.
fn pigeons(rt: &impl Abort, store: &mut AigSat, pigeons: u32, holes: u32) -> Edge {
    assert!(rt; pigeons < 100 && holes < 100);
    let mut all = store.constant(true);
    for pigeon in 0..pigeons {
        let mut somewhere = store.constant(false);
        for hole in 0..holes {
            let here = variable(rt, store, 100 * pigeon + hole);
            somewhere = disjunction(rt, store, somewhere, here);
            for other in 0..pigeon {
                let there = variable(rt, store, 100 * other + hole);
                let both = conjunction(rt, store, here, there);
                let apart = complement(rt, store, both);
                all = conjunction(rt, store, all, apart);
            }
        }
        all = conjunction(rt, store, all, somewhere);
    }
    all
}

/// Whether two adders of different build differ on some words of so many bits.
fn adders(rt: &impl Abort, store: &mut AigSat, width: u32) -> Edge {
    let mut differs = store.constant(false);
    let mut carry = store.constant(false);
    let mut other = store.constant(false);
    assert!(rt; width < 1_000);
    for k in 0..width {
        let x = variable(rt, store, 2 * k);
        let y = variable(rt, store, 2 * k + 1);
        let half = difference(rt, store, x, y);
        let sum = difference(rt, store, half, carry);
        let made = conjunction(rt, store, x, y);
        let passed = conjunction(rt, store, half, carry);
        carry = disjunction(rt, store, made, passed);
        let rest = difference(rt, store, y, other);
        let second = difference(rt, store, x, rest);
        let either = disjunction(rt, store, x, y);
        other = choice(rt, store, other, either, made);
        let bit = difference(rt, store, sum, second);
        differs = disjunction(rt, store, differs, bit);
    }
    differs
}

/// Decides whether so many pigeons fit.
fn try_pigeons(rt: &impl Abort, alloc: Global, size: u32, holes: u32, expected: Decision) {
    let mut store = AigSat::new(alloc, 100_000, 100_000).expect(rt, "no memory");
    let e = pigeons(rt, &mut store, size, holes);
    let decision = decide(rt, alloc, &mut store, e);
    let (_, empty) = taken(rt, &mut store);
    let well = decision == expected && empty == (expected == Decision::Never);
    assert!(rt; well, "{size} {holes}");
}

/// The pigeonhole principle, and two adders that are equal.
#[test]
fn known_functions(rt: HostRuntime) {
    for (size, holes, expected) in [
        (3, 3, Decision::Sometimes),
        (4, 3, Decision::Never),
        (6, 5, Decision::Never),
    ] {
        try_pigeons(&rt, rt.alloc(), size, holes, expected);
    }
    let mut store = AigSat::new(rt.alloc(), 100_000, 100_000).expect(&rt, "no memory");
    let e = adders(&rt, &mut store, 16);
    assert!(rt; decide(&rt, rt.alloc(), &mut store, e) == Decision::Never);
    assert!(rt; taken(&rt, &mut store).1);
}

/// Compares what is decided of an edge, how many clauses that count are learned, and whether there is a search.
fn try_edge(rt: &impl Abort, alloc: Global, store: &mut AigSat, row: (Edge, Decision, u32, bool)) {
    let (e, expected, learned, searches) = row;
    let decision = decide(rt, alloc, store, e);
    let searched = store.propagations() > 0;
    let (count, empty) = taken(rt, store);
    let is_empty = empty == (expected == Decision::Never);
    let well = decision == expected && searched == searches && count == learned && is_empty;
    assert!(rt; well, "{e:?}");
}

/// Edges that need no search, a decision that is given up, and the ones after it: all decisions learn three clauses at most that
/// count, and the empty clause, which has no literal, doesn't.
#[test]
fn answers_and_books(rt: HostRuntime) {
    let mut store = AigSat::new(rt.alloc(), 1_000, 3).expect(&rt, "no memory");
    assert!(rt; store.take_book().is_none() && store.limit() == 1_000);
    let high = store.constant(true);
    let x = variable(&rt, &mut store, 0);
    let y = variable(&rt, &mut store, 1);
    let not_y = complement(&rt, &store, y);
    let both = conjunction(&rt, &mut store, x, not_y);
    let not_x = complement(&rt, &store, x);
    let neither = disjunction(&rt, &mut store, not_x, y);
    let low = complement(&rt, &store, high);
    let hard = pigeons(&rt, &mut store, 4, 3);
    for row in [
        (high, Decision::Sometimes, 0, false),
        (x, Decision::Sometimes, 0, false),
        (not_y, Decision::Sometimes, 0, false),
        (both, Decision::Sometimes, 0, true),
        (neither, Decision::Sometimes, 0, false),
        (low, Decision::Never, 0, false),
        (both, Decision::Sometimes, 0, true),
        (hard, Decision::Spent, 3, true),
        (neither, Decision::Sometimes, 0, false),
        (both, Decision::Spent, 0, false),
        (low, Decision::Spent, 0, false),
        (high, Decision::Sometimes, 0, false),
    ] {
        try_edge(&rt, rt.alloc(), &mut store, row);
    }
}
