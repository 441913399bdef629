//! What no clause says: that calls succeed with ample memory, and what they answer on clauses that were worked by hand and
//! on all assignments of small graphs.

ghost use Rattle.std.specs.Prelude.{◌≡◌, ◌<◌, All};
ghost use Rattle.bfr_store.specs.Edges.{node_of};
ghost use Rattle.aig_store.specs.Nodes.{IsLive};
ghost use Rattle.cnf_rup.specs.Literals.{IsClause};

use super::gates::{complement, conjunction, variable};
use aig_store::Aig;
use bfr_store::Edge;
use cnf_rup::{Clause, ClauseBook, Hints, Learn, cnf_of, trimmed};
use gl_logic::Assignment;
use std::alloc::Global;
use std::process::Abort;

fn clause_of(rt: &impl Abort, alloc: Global, literals: &[i32]) -> Clause
    ensures { IsClause result }
{
    let mut clause = Clause::new(alloc);
    for literal in literals {
        assert!(rt; *literal != 0 && *literal > i32::MIN);
        clause.push(*literal).expect(rt, "no memory");
    }
    clause
}

fn hints_of(rt: &impl Abort, alloc: Global, numbers: &[u32]) -> Hints
    ensures { All (λ n. 0 < n) result }
{
    let mut hints = Hints::new(alloc);
    for number in numbers {
        assert!(rt; *number > 0);
        hints.push(*number).expect(rt, "no memory");
    }
    hints
}

fn learn(
    rt: &impl Abort,
    alloc: Global,
    book: &mut ClauseBook,
    literals: &[i32],
    numbers: &[u32],
) -> Learn {
    let clause = clause_of(rt, alloc, literals);
    let hints = hints_of(rt, alloc, numbers);
    assert!(rt; book.count() < u32::MAX);
    book.learn(&clause, &hints).expect(rt, "no memory")
}

/// Whether the clause of this number has these literals, and these hints.
fn is_entry(rt: &impl Abort, book: &ClauseBook, id: u32, literals: &[i32], hints: &[u32]) -> bool {
    assert!(rt; 1 <= id && id <= book.count());
    let entry = book.entry(id);
    *book.clause(id).as_slice() == *literals
        && *entry.clause.as_slice() == *literals
        && *entry.hints.as_slice() == *hints
}

fn book_of(rt: &impl Abort, alloc: Global, store: &Aig, e: Edge) -> ClauseBook {
    assert!(rt; store.is_live(e));
    cnf_of(alloc, store, e).expect(rt, "no memory")
}

/// The variable 0.
fn book_of_variable(rt: &impl Abort, alloc: Global) -> ClauseBook {
    let mut store = Aig::new(alloc, 100).expect(rt, "no memory");
    let x = variable(rt, &mut store, 0);
    book_of(rt, alloc, &store, x)
}

/// x and not y: the nodes x, y and the conjunction are the variables 2, 3 and 4.
fn book_of_conjunction(rt: &impl Abort, alloc: Global) -> ClauseBook {
    let mut store = Aig::new(alloc, 100).expect(rt, "no memory");
    let x = variable(rt, &mut store, 0);
    let y = variable(rt, &mut store, 1);
    let not_y = complement(rt, &store, y);
    let both = conjunction(rt, &mut store, x, not_y);
    book_of(rt, alloc, &store, both)
}

#[test]
fn clauses_of_a_conjunction(rt: HostRuntime) {
    let book = book_of_conjunction(&rt, rt.alloc());
    assert!(rt; book.count() == 4 && book.first_count() == 4 && !book.empty_shown());
    let rows: [(u32, &[i32]); 4] = [(1, &[-4, 2]), (2, &[-4, -3]), (3, &[4, -2, 3]), (4, &[4])];
    for (id, literals) in rows {
        assert!(rt; is_entry(&rt, &book, id, literals, &[]), "{id}");
    }
}

#[test]
fn nothing_is_shown_of_a_variable(rt: HostRuntime) {
    let mut book = book_of_variable(&rt, rt.alloc());
    assert!(rt; book.count() == 1 && is_entry(&rt, &book, 1, &[2], &[]));
    for hints in [&[][..], &[99]] {
        assert!(rt; learn(&rt, rt.alloc(), &mut book, &[], hints) == Learn::NotShown(0));
        assert!(rt; book.count() == 1 && !book.empty_shown());
    }
}

/// Proposes a clause to the book of x and not y, whose clauses are (-4 2), (-4 -3), (4 -2 3) and (4).
fn propose(rt: &impl Abort, alloc: Global, literals: &[i32], hints: &[u32], answer: Learn) {
    let mut book = book_of_conjunction(rt, alloc);
    let found = learn(rt, alloc, &mut book, literals, hints);
    assert!(rt; found == answer, "{literals:?} {hints:?} {found:?}");
    let is_taken = answer == Learn::Taken(5);
    assert!(rt; book.count() == if is_taken { 5 } else { 4 });
    assert!(rt; book.first_count() == 4 && !book.empty_shown());
    assert!(rt; !is_taken || is_entry(rt, &book, 5, literals, hints));
}

/// Clauses that are proposed.
#[test]
fn proposed_clauses(rt: HostRuntime) {
    let taken = Learn::Taken(5);
    let rows: [(&[i32], &[u32], Learn); 19] = [
        (&[2], &[4, 1], taken),
        (&[2], &[1, 4], taken),
        (&[2], &[4], Learn::NotShown(1)),
        (&[2], &[1], Learn::NotShown(1)),
        (&[2], &[], Learn::NotShown(0)),
        (&[2], &[1, 2, 4], Learn::NotShown(1)),
        (&[2], &[3, 4, 1], Learn::NotShown(0)),
        (&[2], &[4, 5, 1], Learn::NotShown(1)),
        (&[2], &[4, 1, 99], taken),
        (&[2, 2], &[4, 1], taken),
        (&[2, 900], &[4, 1], taken),
        (&[3], &[3], Learn::NotShown(0)),
        (&[3], &[4, 1, 3], Learn::NotShown(2)),
        (&[-3], &[2, 4], taken),
        (&[4, -2], &[3, 2], Learn::NotShown(1)),
        (&[5, -5], &[99], taken),
        (&[5, 7, -5], &[], taken),
        (&[-4, 2], &[1], taken),
        (&[1_000_000], &[4, 4], Learn::NotShown(1)),
    ];
    for (literals, hints, answer) in rows {
        propose(&rt, rt.alloc(), literals, hints, answer);
    }
}

/// x and y, and x and not y: nothing makes both true.
fn book_of_nothing(rt: &impl Abort, alloc: Global) -> ClauseBook {
    let mut store = Aig::new(alloc, 100).expect(rt, "no memory");
    let x = variable(rt, &mut store, 0);
    let y = variable(rt, &mut store, 1);
    let not_y = complement(rt, &store, y);
    let first = conjunction(rt, &mut store, x, y);
    let second = conjunction(rt, &mut store, x, not_y);
    let both = conjunction(rt, &mut store, first, second);
    book_of(rt, alloc, &store, both)
}

/// A learned clause with a literal twice is a hint.
#[test]
fn empty_clause(rt: HostRuntime) {
    let mut book = book_of_nothing(&rt, rt.alloc());
    assert!(rt; book.count() == 10 && is_entry(&rt, &book, 8, &[-5, -3], &[]));
    assert!(rt; learn(&rt, rt.alloc(), &mut book, &[3, 3], &[10, 1, 5]) == Learn::Taken(11));
    assert!(rt; learn(&rt, rt.alloc(), &mut book, &[], &[11, 8, 2]) == Learn::NotShown(3));
    assert!(rt; !book.empty_shown());
    assert!(rt; learn(&rt, rt.alloc(), &mut book, &[], &[11, 8, 2, 10]) == Learn::Taken(12));
    assert!(rt; book.empty_shown() && book.count() == 12 && book.first_count() == 10);
}

/// Of nine learned clauses the first empty one needs three: (3 3), (-3) and (3). The others go, what stands behind the empty
/// clause and a hint that names none too.
#[test]
fn clauses_left_out(rt: HostRuntime) {
    let alloc = rt.alloc();
    let mut book = book_of_nothing(&rt, alloc);
    let rows: [(&[i32], &[u32]); 9] = [
        (&[2], &[10, 1, 4]),
        (&[3, 3], &[10, 1, 5]),
        (&[-3], &[10, 2, 8]),
        (&[5], &[10, 2]),
        (&[3], &[12, 99]),
        (&[3, 4], &[12]),
        (&[], &[15, 13]),
        (&[2, 4], &[11]),
        (&[], &[17]),
    ];
    for (literals, hints) in rows {
        let answer = learn(&rt, alloc, &mut book, literals, hints);
        assert!(rt; answer != Learn::NotShown(0), "{literals:?}");
    }
    assert!(rt; book.count() == 19);
    let book = trimmed(alloc, book);
    assert!(rt; book.count() == 14 && book.first_count() == 10 && book.empty_shown());
    let rows: [(u32, &[i32], &[u32]); 5] = [
        (10, &[6], &[]),
        (11, &[3, 3], &[10, 1, 5]),
        (12, &[-3], &[10, 2, 8]),
        (13, &[3], &[11]),
        (14, &[], &[13, 12]),
    ];
    for (id, literals, hints) in rows {
        assert!(rt; is_entry(&rt, &book, id, literals, hints), "{id}");
    }
}

/// Nothing is left out where there is no empty clause.
#[test]
fn nothing_left_out(rt: HostRuntime) {
    let mut book = book_of_conjunction(&rt, rt.alloc());
    assert!(rt; learn(&rt, rt.alloc(), &mut book, &[2], &[4, 1]) == Learn::Taken(5));
    let book = trimmed(rt.alloc(), book);
    assert!(rt; book.count() == 5 && is_entry(&rt, &book, 5, &[2], &[4, 1]));
}

/// Whether bit k of a number is set.
fn bit(number: u32, k: u32) -> bool {
    k < 32 && (number >> k) % 2 == 1
}

/// Whether the clause has a literal that is true where bit v gives variable v.
fn satisfies(values: u32, clause: &Clause) -> bool {
    for literal in clause.as_slice() {
        if bit(values, literal.unsigned_abs()) == (*literal > 0) {
            return true;
        }
    }
    false
}

fn satisfies_all(rt: &impl Abort, values: u32, book: &ClauseBook) -> bool {
    for id in 1..=book.count() {
        assert!(rt; 1 <= id && id <= book.count());
        if !satisfies(values, book.clause(id)) {
            return false;
        }
    }
    true
}

/// What an edge says where bit k of a number gives variable k of three.
fn value_where(rt: &impl Abort, alloc: Global, store: &mut Aig, e: Edge, given: u32) -> bool {
    let mut a = Assignment::new(alloc, 3).expect(rt, "no memory");
    a.set(0, bit(given, 0));
    a.set(1, bit(given, 1));
    a.set(2, bit(given, 2));
    assert!(rt; store.width() == 3 && store.is_live(e));
    store.value(e, &a)
}

/// Whether values of the other variables make all clauses true.
fn extends(rt: &impl Abort, book: &ClauseBook, given: u32) -> bool
    requires { given < 8 }
{
    for other in 0..256u32 {
        let values = other / 2 * 32 + given * 4 + other % 2 * 2;
        if satisfies_all(rt, values, book) {
            return true;
        }
    }
    false
}

/// Compares the clauses of an edge with what the edge says, on all assignments of three variables x, y and z, which are the
/// variables 2, 3 and 4 of the clauses, and of 10 variables of clauses in all.
fn agrees(rt: &impl Abort, alloc: Global, store: &mut Aig, e: Edge) {
    let book = book_of(rt, alloc, store, e);
    for given in 0..8u32 {
        let said = value_where(rt, alloc, store, e, given);
        assert!(rt; extends(rt, &book, given) == said, "{given} {said}");
    }
}

/// The edge, or another one where the flag is set.
fn either(flag: bool, e: Edge, other: Edge) -> Edge {
    if flag { other } else { e }
}

/// Edges over three variables, with this way of complements.
fn edges_of(rt: &impl Abort, store: &mut Aig, way: u32) -> [Edge; 8] {
    let x = variable(rt, store, 0);
    let y = variable(rt, store, 1);
    let z = variable(rt, store, 2);
    let not_x = complement(rt, store, x);
    let not_y = complement(rt, store, y);
    let one = conjunction(rt, store, x, either(bit(way, 0), y, not_y));
    let other = conjunction(rt, store, not_x, either(bit(way, 1), y, not_y));
    let not_one = complement(rt, store, one);
    let not_other = complement(rt, store, other);
    let neither = conjunction(rt, store, not_one, either(bit(way, 2), other, not_other));
    let all = conjunction(rt, store, neither, z);
    let not_all = complement(rt, store, all);
    [
        either(bit(way, 3), all, not_all),
        x,
        not_y,
        one,
        not_other,
        neither,
        store.constant(true),
        store.constant(false),
    ]
}

/// Edges over three variables, with each way of complements.
#[test]
fn clauses_of_small_graphs(rt: HostRuntime) {
    for way in 0..16u32 {
        let mut store = Aig::new(rt.alloc(), 100).expect(&rt, "no memory");
        for e in edges_of(&rt, &mut store, way) {
            agrees(&rt, rt.alloc(), &mut store, e);
        }
    }
}

/// A conjunction of 100,000 variables, each on top of the one before: no call nests.
#[test]
fn deep_cone(rt: HostRuntime) {
    let mut store = Aig::new(rt.alloc(), 300_000).expect(&rt, "no memory");
    let mut all = store.constant(true);
    for k in 0..100_000u32 {
        let v = variable(&rt, &mut store, k);
        all = conjunction(&rt, &mut store, v, all);
    }
    let book = book_of(&rt, rt.alloc(), &store, all);
    assert!(rt; book.count() == 3 * 99_999 + 1);
}
