//! What no clause says: that calls succeed with ample memory, that the trait's generic gates run on this store, and how
//! many nodes known functions take.

use bdd_store::Bdd;
use bdd_store::node::{FALSE, TRUE};
use bfr_store::{Bits, Decision, Edge, differ, either};
use gl_logic::Assignment;
use std::alloc::Global;
use std::process::Abort;

fn variable(rt: &impl Abort, store: &mut Bdd, k: u32) -> Edge {
    assert!(rt; k < 1024);
    store.var(k).expect(rt, "no room for a variable")
}

fn conjunction(rt: &impl Abort, store: &mut Bdd, x: Edge, y: Edge) -> Edge {
    assert!(rt; store.is_live(x) && store.is_live(y));
    store.and(x, y).expect(rt, "no room for a conjunction")
}

fn complement(rt: &impl Abort, store: &Bdd, x: Edge) -> Edge {
    assert!(rt; store.is_live(x));
    store.not(x)
}

fn disjunction(rt: &impl Abort, store: &mut Bdd, x: Edge, y: Edge) -> Edge {
    assert!(rt; store.is_live(x) && store.is_live(y));
    either(store, x, y).expect(rt, "no room for a disjunction")
}

fn difference(rt: &impl Abort, store: &mut Bdd, x: Edge, y: Edge) -> Edge {
    assert!(rt; store.is_live(x) && store.is_live(y));
    differ(store, x, y).expect(rt, "no room for an exclusive or")
}

fn choice(rt: &impl Abort, store: &mut Bdd, t: Edge, x: Edge, y: Edge) -> Edge {
    assert!(rt; store.is_live(t) && store.is_live(x) && store.is_live(y));
    store.ite(t, x, y).expect(rt, "no room for a choice")
}

/// The sum of three bits.
fn sum_of(rt: &impl Abort, store: &mut Bdd, x: Edge, y: Edge, carry: Edge) -> Edge {
    let half = difference(rt, store, x, y);
    difference(rt, store, half, carry)
}

/// What the sum of three bits carries.
fn carry_of(rt: &impl Abort, store: &mut Bdd, x: Edge, y: Edge, carry: Edge) -> Edge {
    let some = disjunction(rt, store, x, y);
    let all = conjunction(rt, store, x, y);
    choice(rt, store, carry, some, all)
}

/// What the difference `x - y - borrow` borrows.
fn borrow_of(rt: &impl Abort, store: &mut Bdd, x: Edge, y: Edge, borrow: Edge) -> Edge {
    let none = complement(rt, store, x);
    carry_of(rt, store, none, y, borrow)
}

/// What is decided of an edge. An assignment that is found makes it true.
fn decision(rt: &impl Abort, alloc: Global, store: &mut Bdd, e: Edge) -> Decision {
    assert!(rt; store.is_live(e));
    let mut out = Assignment::new(alloc, store.width()).expect(rt, "no memory");
    let found = store.decide(e, &mut out).expect(rt, "no memory");
    assert!(rt; found != Decision::Sometimes || store.value(e, &out));
    found
}

/// Whether the edge is false where all variables are, and true where variable `k` alone is true.
fn follows_variable(rt: &impl Abort, alloc: Global, store: &mut Bdd, e: Edge, k: u32) -> bool {
    let width = store.width();
    assert!(rt; store.is_live(e) && k < width);
    let mut a = Assignment::new(alloc, width).expect(rt, "no memory");
    let without = store.value(e, &a);
    a.set(k, true);
    !without && store.value(e, &a)
}

#[test]
fn conjunctions_in_two_orders(rt: HostRuntime) {
    let mut store = Bdd::new(rt.alloc(), 1000).expect(&rt, "no memory");
    let x = variable(&rt, &mut store, 0);
    let y = variable(&rt, &mut store, 1);
    let again = variable(&rt, &mut store, 0);
    assert!(rt; x == again && store.count() == 2 && store.width() == 2 && store.limit() == 1000);
    let one_way = conjunction(&rt, &mut store, x, y);
    let other_way = conjunction(&rt, &mut store, y, x);
    assert!(rt; one_way == other_way);
}

#[test]
fn decisions(rt: HostRuntime) {
    let mut store = Bdd::new(rt.alloc(), 1000).expect(&rt, "no memory");
    let x = variable(&rt, &mut store, 0);
    let y = variable(&rt, &mut store, 1);
    let not_x = complement(&rt, &store, x);
    let never = conjunction(&rt, &mut store, x, not_x);
    assert!(rt; never == store.constant(false));
    assert!(rt; decision(&rt, rt.alloc(), &mut store, never) == Decision::Never);
    let not_y = complement(&rt, &store, y);
    let sometimes = conjunction(&rt, &mut store, x, not_y);
    assert!(rt; decision(&rt, rt.alloc(), &mut store, sometimes) == Decision::Sometimes);
    assert!(rt; follows_variable(&rt, rt.alloc(), &mut store, sometimes, 0));
}

/// Whether a truth table is true at a place.
fn is_true_at(table: u32, place: u32) -> bool {
    place < 32 && (table >> place) % 2 == 1
}

/// What a truth table of three variables says where the first two are fixed: the part that begins at this place.
fn by_last(rt: &impl Abort, store: &mut Bdd, table: u32, place: u32) -> Edge {
    assert!(rt; place < 8);
    let z = variable(rt, store, 2);
    let high = store.constant(is_true_at(table, place));
    let low = store.constant(is_true_at(table, place + 1));
    choice(rt, store, z, high, low)
}

/// The function of three variables with this truth table, by choices at the variables.
fn by_choices(rt: &impl Abort, store: &mut Bdd, table: u32) -> Edge {
    let x = variable(rt, store, 0);
    let y = variable(rt, store, 1);
    let first = by_last(rt, store, table, 0);
    let second = by_last(rt, store, table, 2);
    let third = by_last(rt, store, table, 4);
    let fourth = by_last(rt, store, table, 6);
    let high = choice(rt, store, y, first, second);
    let low = choice(rt, store, y, third, fourth);
    choice(rt, store, x, high, low)
}

/// The variable, or its complement where the flag is not set.
fn literal(rt: &impl Abort, store: &mut Bdd, k: u32, flag: bool) -> Edge {
    let v = variable(rt, store, k);
    if flag { v } else { complement(rt, store, v) }
}

/// The same, as a disjunction of the places where it is true.
fn by_places(rt: &impl Abort, store: &mut Bdd, table: u32) -> Edge {
    let mut whole = FALSE;
    for place in 0..8u32 {
        if is_true_at(table, place) {
            let x = literal(rt, store, 0, place / 4 == 0);
            let y = literal(rt, store, 1, place / 2 % 2 == 0);
            let z = literal(rt, store, 2, place % 2 == 0);
            let both = conjunction(rt, store, x, y);
            let here = conjunction(rt, store, both, z);
            whole = disjunction(rt, store, whole, here);
        }
    }
    whole
}

#[test]
fn functions_of_three_variables(rt: HostRuntime) {
    let mut store = Bdd::new(rt.alloc(), 1000).expect(&rt, "no memory");
    for table in 0..256u32 {
        let one_way = by_choices(&rt, &mut store, table);
        let other_way = by_places(&rt, &mut store, table);
        assert!(rt; one_way == other_way, "{table}");
    }
    // Of the 256 functions each node stands for two, one a complement, and the constant's node for two more.
    assert!(rt; store.count() == 127);
}

/// Whether `x + y` is `z`, in words of `bits` bits whose variables alternate with the most significant first: by the sum,
/// and by the difference of z and y.
fn equalities(rt: &impl Abort, store: &mut Bdd, bits: u32) -> (Edge, Edge) {
    let mut carry = FALSE;
    let mut borrow = FALSE;
    let mut by_sum = TRUE;
    let mut by_difference = TRUE;
    for i in (0..bits).rev() {
        assert!(rt; i < 300);
        let x = variable(rt, store, 3 * i);
        let y = variable(rt, store, 3 * i + 1);
        let z = variable(rt, store, 3 * i + 2);
        let sum = sum_of(rt, store, x, y, carry);
        let wrong = difference(rt, store, sum, z);
        let right = complement(rt, store, wrong);
        by_sum = conjunction(rt, store, by_sum, right);
        carry = carry_of(rt, store, x, y, carry);
        let rest = sum_of(rt, store, z, y, borrow);
        let wrong = difference(rt, store, rest, x);
        let right = complement(rt, store, wrong);
        by_difference = conjunction(rt, store, right, by_difference);
        borrow = borrow_of(rt, store, z, y, borrow);
    }
    (by_sum, by_difference)
}

#[test]
fn adders(rt: HostRuntime) {
    for (bits, most) in [(16, 16_000), (64, 20_000)] {
        let mut store = Bdd::new(rt.alloc(), 1_000_000).expect(&rt, "no memory");
        let (by_sum, by_difference) = equalities(&rt, &mut store, bits);
        assert!(rt;
            by_sum == by_difference && store.count() < most,
            "{bits} bits"
        );
    }
}

/// The edge at this place of a word, or the constant false past its end.
fn bit(word: &Vec<Edge>, i: usize) -> Edge {
    word.get(i).copied().unwrap_or(FALSE)
}

/// The sum of two words, as long as the first.
fn add(rt: &impl Abort, alloc: Global, store: &mut Bdd, x: &Vec<Edge>, y: &Vec<Edge>) -> Vec<Edge> {
    let mut sum = Vec::new(alloc);
    let mut carry = FALSE;
    for i in 0..x.len() {
        let (first, second) = (bit(x, i), bit(y, i));
        let digit = sum_of(rt, store, first, second, carry);
        sum.push(digit).expect(rt, "no memory");
        carry = carry_of(rt, store, first, second, carry);
    }
    sum
}

/// The row of sixteen bits that bit `i` of the first word selects.
fn row(
    rt: &impl Abort,
    alloc: Global,
    store: &mut Bdd,
    x: &Vec<Edge>,
    y: &Vec<Edge>,
    i: usize,
) -> Vec<Edge> {
    let mut row = Vec::new(alloc);
    for k in 0..16usize {
        let here = if k < i {
            FALSE
        } else {
            conjunction(rt, store, bit(x, i), bit(y, k - i))
        };
        row.push(here).expect(rt, "no memory");
    }
    row
}

/// The product of two words of eight bits, as the sum of the rows that the bits of the first select.
fn product(
    rt: &impl Abort,
    alloc: Global,
    store: &mut Bdd,
    x: &Vec<Edge>,
    y: &Vec<Edge>,
) -> Vec<Edge> {
    let mut whole = [FALSE; 16].to_vec(alloc).expect(rt, "no memory");
    for i in 0..8usize {
        let row = row(rt, alloc, store, x, y, i);
        whole = add(rt, alloc, store, &whole, &row);
    }
    whole
}

/// The word of the eight variables 2k, or of the eight 2k + 1.
fn word(rt: &impl Abort, alloc: Global, store: &mut Bdd, odd: bool) -> Vec<Edge> {
    let mut word = Vec::new(alloc);
    for k in 0..8 {
        let v = variable(rt, store, if odd { 2 * k + 1 } else { 2 * k });
        word.push(v).expect(rt, "no memory");
    }
    word
}

#[test]
fn multipliers(rt: HostRuntime) {
    let mut store = Bdd::new(rt.alloc(), 1_000_000).expect(&rt, "no memory");
    for k in 0..16 {
        let _made = variable(&rt, &mut store, k);
    }
    let x = word(&rt, rt.alloc(), &mut store, false);
    let y = word(&rt, rt.alloc(), &mut store, true);
    let one_way = product(&rt, rt.alloc(), &mut store, &x, &y);
    let other_way = product(&rt, rt.alloc(), &mut store, &y, &x);
    assert!(rt; one_way.len() == 16 && one_way == other_way);
}

/// As many variables as a theorem may have, on one way down: each call goes as deep as there are variables.
#[test]
fn many_variables(rt: HostRuntime) {
    let mut store = Bdd::new(rt.alloc(), 100_000).expect(&rt, "no memory");
    let mut all = TRUE;
    let mut none = TRUE;
    for k in (0..512u32).rev() {
        let x = literal(&rt, &mut store, 2 * k, true);
        all = conjunction(&rt, &mut store, x, all);
        let y = literal(&rt, &mut store, 2 * k + 1, false);
        none = conjunction(&rt, &mut store, y, none);
    }
    let one_way = conjunction(&rt, &mut store, all, none);
    let other_way = choice(&rt, &mut store, none, all, FALSE);
    assert!(rt; one_way == other_way && store.width() == 1024);
    assert!(rt; decision(&rt, rt.alloc(), &mut store, one_way) == Decision::Sometimes);
}

/// Fills a small store with exclusive ors until it is full. What was made before keeps its meaning, and the count
/// stands at the limit.
#[test]
fn limit_reached(rt: HostRuntime) {
    let mut store = Bdd::new(rt.alloc(), 60).expect(&rt, "no memory");
    for k in 0..13u32 {
        let _made = variable(&rt, &mut store, k);
    }
    let mut whole = TRUE;
    let mut refusals = 0u32;
    for k in 0..13u32 {
        let v = variable(&rt, &mut store, k);
        assert!(rt; store.is_live(whole));
        assert!(rt; store.is_live(v));
        match differ(&mut store, whole, v) {
            Ok(next) => whole = next,
            Err(_) => refusals = refusals.saturating_add(1),
        }
    }
    assert!(rt; refusals > 0 && store.count() == 60);
    for k in 0..13u32 {
        let v = variable(&rt, &mut store, k);
        assert!(rt; follows_variable(&rt, rt.alloc(), &mut store, v, k), "{k}");
    }
}
