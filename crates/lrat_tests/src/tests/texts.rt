//! What no clause says: that the texts are written with ample memory, and what they are for refutations that were worked by
//! hand.

ghost use Rattle.std.specs.Prelude.{◌≡◌, ◌≤◌, ◌<◌, true, All};
ghost use Rattle.cnf_rup.specs.Books.{first_clauses};
ghost use Rattle.cnf_rup.specs.Literals.{IsClause, IsUpTo};
ghost use Rattle.cnf_rup.specs.Refutations.{IsRefutation};

use super::rows::judged;
use aig_store::Aig;
use bfr_store::Edge;
use cnf_rup::{Clause, ClauseBook, Hints, Learn, cnf_of};
use lrat_tool::{Judgement, cnf_text, log_text};
use std::alloc::Global;
use std::process::Abort;
use std::thread::Threads;

fn conjunction(rt: &impl Abort, store: &mut Aig, x: Edge, y: Edge) -> Edge {
    assert!(rt; store.is_live(x) && store.is_live(y));
    store.and(x, y).expect(rt, "no room for a conjunction")
}

fn book_of(rt: &impl Abort, alloc: Global, store: &Aig, e: Edge) -> ClauseBook {
    assert!(rt; store.is_live(e));
    cnf_of(alloc, store, e).expect(rt, "no memory")
}

fn clause_of(rt: &impl Abort, alloc: Global, literals: &[i32]) -> Clause
    ensures { IsClause result }
{
    let mut clause = Clause::new(alloc);
    for literal in literals {
        assert!(rt; *literal != 0 && *literal > i32::MIN);
        clause.push(*literal).expect(rt, "no memory");
    }
    clause
}

fn hints_of(rt: &impl Abort, alloc: Global, numbers: &[u32]) -> Hints
    ensures { All (λ n. 0 < n) result }
{
    let mut hints = Hints::new(alloc);
    for number in numbers {
        assert!(rt; *number > 0);
        hints.push(*number).expect(rt, "no memory");
    }
    hints
}

/// Puts a clause last that the hints show.
fn put(rt: &impl Abort, alloc: Global, book: &mut ClauseBook, literals: &[i32], numbers: &[u32]) {
    let clause = clause_of(rt, alloc, literals);
    let hints = hints_of(rt, alloc, numbers);
    assert!(rt; book.count() < u32::MAX);
    let number = book.count() + 1;
    assert!(rt; book.learn(&clause, &hints).expect(rt, "no memory") == Learn::Taken(number));
}

/// The constant false, whose clauses are (1) and (-1).
fn book_of_false(rt: &impl Abort, alloc: Global) -> ClauseBook {
    let mut store = Aig::new(alloc, 100).expect(rt, "no memory");
    let none = store.constant(false);
    let mut book = book_of(rt, alloc, &store, none);
    put(rt, alloc, &mut book, &[], &[1, 2]);
    book
}

/// x and y, and x and not y: the nodes x, y, the two conjunctions and theirs are the variables 2 to 6.
fn book_of_nothing(rt: &impl Abort, alloc: Global) -> ClauseBook {
    let mut store = Aig::new(alloc, 100).expect(rt, "no memory");
    let x = store.var(0).expect(rt, "no room for a variable");
    let y = store.var(1).expect(rt, "no room for a variable");
    assert!(rt; store.is_live(y));
    let not_y = store.not(y);
    let first = conjunction(rt, &mut store, x, y);
    let second = conjunction(rt, &mut store, x, not_y);
    let both = conjunction(rt, &mut store, first, second);
    let mut book = book_of(rt, alloc, &store, both);
    put(rt, alloc, &mut book, &[3, 3], &[10, 1, 5]);
    put(rt, alloc, &mut book, &[], &[11, 8, 2, 10]);
    book
}

fn is_small(clause: &Clause) -> bool
    ensures { result ≡ true → IsUpTo 10000000 clause.now }
{
    for literal in clause.as_slice() {
        if literal.unsigned_abs() > 10_000_000 {
            return false;
        }
    }
    true
}

fn are_small(book: &ClauseBook) -> bool
    ensures { result ≡ true → All (IsUpTo 10000000) (first_clauses book.now) }
{
    for place in 0..book.first_count() {
        if !is_small(book.clause(place + 1)) {
            return false;
        }
    }
    true
}

/// Whether the book is one whose texts can be written.
fn is_refutation(book: &ClauseBook) -> bool
    ensures { result ≡ true → IsRefutation book.now }
{
    let _count = book.count();
    book.empty_shown() && book.first_count() <= 100_000_000 && are_small(book)
}

/// Compares the texts of a refutation, behind bytes that stand there, and judges them.
fn writes<R: Threads + Sync + Abort>(
    rt: &R,
    alloc: Global,
    book: &ClauseBook,
    cnf: &[u8],
    log: &[u8],
) {
    assert!(rt; is_refutation(book));
    let mut out = Vec::from_slice(alloc, b"% ").expect(rt, "no memory");
    cnf_text(book, &mut out).expect(rt, "no memory");
    assert!(rt; out.as_slice().starts_with(b"% ") && out.as_slice().ends_with(cnf));
    assert!(rt; out.len() == cnf.len() + 2);
    out.clear();
    log_text(book, &mut out).expect(rt, "no memory");
    assert!(rt; *out.as_slice() == *log);
    let judgement = judged(rt, alloc, cnf, log, 2).expect(rt, "no memory");
    assert!(rt; judgement == Some(Judgement::Verified));
}

#[test]
fn texts_of_refutations(rt: HostRuntime) {
    let alloc = rt.alloc();
    let book = book_of_false(&rt, alloc);
    writes(&rt, alloc, &book, b"p cnf 1 2\n1 0\n-1 0\n", b"3 0 1 2 0\n");
    let book = book_of_nothing(&rt, alloc);
    let cnf =
        b"p cnf 6 10\n-6 4 0\n-6 5 0\n6 -4 -5 0\n-4 2 0\n-4 3 0\n4 -2 -3 0\n-5 2 0\n-5 -3 0\n5 -2 3 0\n6 0\n";
    writes(
        &rt,
        alloc,
        &book,
        cnf,
        b"11 3 3 0 10 1 5 0\n12 0 11 8 2 10 0\n",
    );
}
