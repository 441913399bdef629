//! A decision: what costs no search first, and then the search, each of whose conflicts gives a clause to the book.

ghost use Rattle.std.specs.Prelude.{◌≡◌, ◌≢◌, ◌≤◌, ◌<◌, ◌+◌, ◌-◌, ◌&&◌, ℕ, Bool, true, false, cond, ltb, slice_get, length, Some, IfOk, OnOk, OnErr};
ghost use Rattle.gl_logic.specs.Assignments.{value_at};
ghost use Rattle.aig_store.specs.Nodes.{IsLive, truth_of};
ghost use Rattle.cnf_rup.specs.Books.{AllFollow, IsBook, holds_empty};
ghost use Rattle.cnf_rup.specs.declared.clause.Entry.{Entry};
ghost use Rattle.sat_core.specs.Decisions.{IsBookOf, IsDecidedBy, LearnsOne, counted_in, is_slight};

use super::candidate::{try_found, try_known};
use super::propose::learn_next;
use super::search::{Event, Search};
use aig_store::Aig;
use bfr_store::{Decision, Edge};
use cnf_rup::{ClauseBook, cnf_of};
use gl_logic::{Assignment, NoMemory};
use std::alloc::Global;

/// Whether the empty clause is in the book.
fn is_refuted(book: &ClauseBook) -> bool
    ensures empty { result ≡ holds_empty book.now.entries }
    ensures book { IsBook book.now }
    ensures follow { AllFollow book.now }
{
    // Read for what it tells of the book: each clause follows from the first ones.
    let _count = book.count();
    book.empty_shown()
}

/// Tries the assignment that the search has come to, where it has come to one without a conflict.
fn is_found(
    alloc: Global,
    aig: &mut Aig,
    e: Edge,
    search: &Search,
    event: Event,
    out: &mut Assignment,
) -> Result<bool, NoMemory>
    requires live { IsLive aig.old e }
    ensures graph { aig.new ≡ aig.old }
    ensures model { result ≡ Ok true → truth_of aig.old.nodes e (value_at out.new) ≡ true }
    ensures bits { result ≡ Ok true → length out.new ≡ aig.old.width }
    ensures untouched { result ≢ Ok true → out.new ≡ out.old }
{
    match event {
        Event::Model => try_found(alloc, aig, e, search, out),
        _ => Ok(false),
    }
}

/// Learns one clause. Whether the empty clause is in the book then.
fn learns_empty(
    alloc: Global,
    search: &mut Search,
    event: Event,
    book: &mut ClauseBook,
) -> Result<bool, NoMemory>
    requires { length book.old.entries < 4294967295 }
    ensures learns { OnOk result (LearnsOne book.old book.new) }
    ensures empty { IfOk result (λ r. r ≡ holds_empty book.new.entries) }
    ensures book { OnOk result (IsBook book.new) }
    ensures follow { OnOk result (AllFollow book.new) }
{
    learn_next(alloc, search, event, book)?;
    Ok(is_refuted(book))
}

/// How many slight clauses of a book don't count.
const FREE: u32 = 1_000_000;

/// Whether the clause that was learned last is slight.
fn is_last_slight(book: &ClauseBook) -> bool
    requires { 1 ≤ length book.now.entries }
    ensures { (e : Entry) → slice_get book.now.entries (length book.now.entries - 1) ≡ Some e → result ≡ is_slight e }
{
    let last = book.entry(book.count());
    last.clause.len() <= 1 || last.hints.len() <= 2
}

/// Takes the clause that was learned last from those that are left: a slight one from those that are free, while there are any.
fn charge(book: &ClauseBook, left: &mut u32, free: &mut u32)
    requires some { 1 ≤ length book.now.entries }
    requires left { 1 ≤ left.old }
    ensures left { (e : Entry) → slice_get book.now.entries (length book.now.entries - 1) ≡ Some e → left.new + cond (ltb 0 free.old && is_slight e) 0 1 ≡ left.old }
    ensures free { (e : Entry) → slice_get book.now.entries (length book.now.entries - 1) ≡ Some e → free.new + cond (ltb 0 free.old && is_slight e) 1 0 ≡ free.old }
{
    if *free > 0 && is_last_slight(book) {
        *free -= 1;
    } else {
        *left -= 1;
    }
}

/// The book of an edge's clauses, which has learned none.
fn begin(alloc: Global, aig: &Aig, e: Edge) -> Result<ClauseBook, NoMemory>
    requires { IsLive aig.now e }
    ensures { IfOk result (λ b. IsBookOf aig.now.nodes e b 0) }
{
    // Read for what they tell of the count of nodes: it is within the limit, which is small.
    let _within = aig.count();
    let _small = aig.limit();
    let book = cnf_of(alloc, aig, e)?;
    let _count = book.count();
    Ok(book)
}

/// Searches, from where the search stands, for an assignment that makes the edge true, and learns at most as many clauses that
/// count as are left. What it has learned of these is taken from them.
fn search_for(
    alloc: Global,
    aig: &mut Aig,
    book: &mut ClauseBook,
    e: Edge,
    left: &mut u32,
    search: &mut Search,
    out: &mut Assignment,
) -> Result<Decision, NoMemory>
    requires live { IsLive aig.old e }
    requires width { length out.old ≡ aig.old.width }
    requires small { left.old ≤ 1000000000 }
    requires book { IsBookOf aig.old.nodes e book.old 0 }
    requires none { holds_empty book.old.entries ≡ false }
    ensures graph { aig.new ≡ aig.old }
    ensures decided { IfOk result (λ d. IsDecidedBy aig.old.nodes e left.old book.new d) }
    ensures left { IfOk result (λ d. left.new + counted_in book.new ≡ left.old) }
    ensures never { result ≡ Ok Decision.Never → (a : ℕ → Bool) → truth_of aig.old.nodes e a ≡ false }
    ensures sometimes { result ≡ Ok Decision.Sometimes → truth_of aig.old.nodes e (value_at out.new) ≡ true }
    ensures bits { length out.new ≡ length out.old }
    ensures untouched { result ≢ Ok Decision.Sometimes → out.new ≡ out.old }
{
    let mut free = FREE;
    for _learned in 0..*left + FREE {
        if *left == 0 {
            return Ok(Decision::Spent);
        }
        let event = search.run()?;
        let found = is_found(alloc, aig, e, search, event, out)?;
        if found {
            return Ok(Decision::Sometimes);
        }
        let empty = learns_empty(alloc, search, event, book)?;
        charge(book, left, &mut free);
        if empty {
            return Ok(Decision::Never);
        }
    }
    Ok(Decision::Spent)
}

/// Decides whether some assignment makes the edge true, by a book of the edge's clauses that has learned none. Tells how
/// many literals were propagated, where it searches.
fn decide_by(
    alloc: Global,
    aig: &mut Aig,
    book: &mut ClauseBook,
    e: Edge,
    left: &mut u32,
    last: &[bool],
    propagations: &mut u64,
    out: &mut Assignment,
) -> Result<Decision, NoMemory>
    requires live { IsLive aig.old e }
    requires width { length out.old ≡ aig.old.width }
    requires small { left.old ≤ 1000000000 }
    requires book { IsBookOf aig.old.nodes e book.old 0 }
    ensures graph { aig.new ≡ aig.old }
    ensures decided { IfOk result (λ d. IsDecidedBy aig.old.nodes e left.old book.new d) }
    ensures left { IfOk result (λ d. left.new + counted_in book.new ≡ left.old) }
    ensures never { result ≡ Ok Decision.Never → (a : ℕ → Bool) → truth_of aig.old.nodes e a ≡ false }
    ensures sometimes { result ≡ Ok Decision.Sometimes → truth_of aig.old.nodes e (value_at out.new) ≡ true }
    ensures bits { length out.new ≡ length out.old }
    ensures untouched { result ≢ Ok Decision.Sometimes → out.new ≡ out.old }
{
    if is_refuted(book) {
        return Ok(Decision::Never);
    }
    let known = try_known(alloc, aig, e, last, out)?;
    if known {
        return Ok(Decision::Sometimes);
    }
    let mut search = Search::new(alloc, book)?;
    let decision = search_for(alloc, aig, book, e, left, &mut search, out)?;
    *propagations = search.propagations;
    Ok(decision)
}

/// Decides whether some assignment makes the edge true. The decision, and its book; and how many literals were propagated,
/// where it searches. Of the clauses that may count, those that it learned are taken.
pub fn decide_edge(
    alloc: Global,
    aig: &mut Aig,
    e: Edge,
    left: &mut u32,
    last: &[bool],
    propagations: &mut u64,
    out: &mut Assignment,
) -> Result<(Decision, ClauseBook), NoMemory>
    requires live { IsLive aig.old e }
    requires width { length out.old ≡ aig.old.width }
    requires small { left.old ≤ 1000000000 }
    ensures graph { aig.new ≡ aig.old }
    ensures decided { IfOk result (λ r. IsDecidedBy aig.old.nodes e left.old r.1 r.0) }
    ensures left { IfOk result (λ r. left.new + counted_in r.1 ≡ left.old) }
    ensures never { IfOk result (λ r. r.0 ≡ Decision.Never → (a : ℕ → Bool) → truth_of aig.old.nodes e a ≡ false) }
    ensures sometimes { IfOk result (λ r. r.0 ≡ Decision.Sometimes → truth_of aig.old.nodes e (value_at out.new) ≡ true) }
    ensures bits { length out.new ≡ length out.old }
    ensures untouched { IfOk result (λ r. r.0 ≢ Decision.Sometimes → out.new ≡ out.old) }
    ensures refused { OnErr result (out.new ≡ out.old) }
{
    let mut book = begin(alloc, aig, e)?;
    let decision = decide_by(alloc, aig, &mut book, e, left, last, propagations, out)?;
    Ok((decision, book))
}
