//! Textbook circuits over decision diagrams, to set the nodes of the calls on lists of bits beside: a ripple adder,
//! shift-and-add, restoring division, a barrel shifter.

use bdd_store::Bdd;
use bfr_store::{Bits, Bitvec, Edge};
use std::process::Abort;

/// The complement.
fn complement(rt: &impl Abort, store: &Bdd, x: Edge) -> Edge {
    assert!(rt; store.is_live(x));
    store.not(x)
}

/// The conjunction.
fn both(rt: &impl Abort, store: &mut Bdd, x: Edge, y: Edge) -> Edge {
    assert!(rt; store.is_live(x) && store.is_live(y));
    store.and(x, y).expect(rt, "no room")
}

/// `x` where `test` is true, and `y` elsewhere.
fn choose(rt: &impl Abort, store: &mut Bdd, test: Edge, x: Edge, y: Edge) -> Edge {
    assert!(rt; store.is_live(test) && store.is_live(x) && store.is_live(y));
    store.ite(test, x, y).expect(rt, "no room")
}

/// The disjunction.
fn either(rt: &impl Abort, store: &mut Bdd, x: Edge, y: Edge) -> Edge {
    let (x, y) = (complement(rt, store, x), complement(rt, store, y));
    let neither = both(rt, store, x, y);
    complement(rt, store, neither)
}

/// The exclusive or.
fn differ(rt: &impl Abort, store: &mut Bdd, x: Edge, y: Edge) -> Edge {
    let other = complement(rt, store, y);
    choose(rt, store, x, other, y)
}

/// Bit `k` of an integer: its sign where it has no such bit.
pub fn bit_of(bits: &Bitvec, k: u32) -> Edge {
    bits.at(k.min(bits.len() - 1))
}

/// The sum of two integers and a carry in so many bits: what leaves them is lost.
fn sum(
    rt: &impl Abort,
    store: &mut Bdd,
    x: &Bitvec,
    y: &Bitvec,
    carry: Edge,
    width: u32,
) -> Bitvec {
    let mut carry = carry;
    let mut bits = Bitvec::of(&[carry]);
    for k in 0..width {
        let (a, b) = (bit_of(x, k), bit_of(y, k));
        let half = differ(rt, store, a, b);
        let digit = differ(rt, store, half, carry);
        bits = put(rt, bits, k, digit);
        let (some, all) = (either(rt, store, a, b), both(rt, store, a, b));
        carry = choose(rt, store, carry, some, all);
    }
    bits
}

/// The bits with one more behind the first `k`: a list of one bit begins anew.
fn put(rt: &impl Abort, bits: Bitvec, k: u32, edge: Edge) -> Bitvec {
    if k == 0 {
        return Bitvec::of(&[edge]);
    }
    let mut bits = bits;
    assert!(rt; !bits.is_full());
    bits.push(edge);
    bits
}

/// The sum of two integers.
pub fn ripple_sum(rt: &impl Abort, store: &mut Bdd, x: &Bitvec, y: &Bitvec) -> Bitvec {
    let width = x.len().max(y.len()) + 1;
    let carry = store.constant(false);
    sum(rt, store, x, y, carry, width)
}

/// An integer with its bits complemented where the test is true.
fn complement_where(rt: &impl Abort, store: &mut Bdd, test: Edge, x: &Bitvec) -> Bitvec {
    let first = differ(rt, store, test, bit_of(x, 0));
    let mut bits = Bitvec::of(&[first]);
    for k in 1..x.len() {
        let edge = differ(rt, store, test, bit_of(x, k));
        bits = put(rt, bits, k, edge);
    }
    bits
}

/// The difference of two integers in so many bits.
fn difference(rt: &impl Abort, store: &mut Bdd, x: &Bitvec, y: &Bitvec, width: u32) -> Bitvec {
    let yes = store.constant(true);
    let complement = complement_where(rt, store, yes, y);
    sum(rt, store, x, &complement, yes, width)
}

/// An integer negated where the test is true, in so many bits.
fn negate_where(rt: &impl Abort, store: &mut Bdd, test: Edge, x: &Bitvec, width: u32) -> Bitvec {
    let zero = store.constant(false);
    let complement = complement_where(rt, store, test, x);
    sum(rt, store, &complement, &Bitvec::of(&[zero]), test, width)
}

/// Whether the first integer is less: the sign of the difference.
pub fn sign_of_difference(rt: &impl Abort, store: &mut Bdd, x: &Bitvec, y: &Bitvec) -> Edge {
    let width = x.len().max(y.len()) + 1;
    let answer = difference(rt, store, x, y, width);
    answer.at(answer.len() - 1)
}

/// Whether two integers are equal: no bit differs.
pub fn all_equal(rt: &impl Abort, store: &mut Bdd, x: &Bitvec, y: &Bitvec) -> Edge {
    let mut found = store.constant(true);
    for k in 0..x.len().max(y.len()) {
        let differs = differ(rt, store, bit_of(x, k), bit_of(y, k));
        let equal = complement(rt, store, differs);
        found = both(rt, store, found, equal);
    }
    found
}

/// An integer where the test is true, and 0 elsewhere.
fn integer_where(rt: &impl Abort, store: &mut Bdd, test: Edge, x: &Bitvec) -> Bitvec {
    let first = both(rt, store, test, bit_of(x, 0));
    let mut bits = Bitvec::of(&[first]);
    for k in 1..x.len() {
        let edge = both(rt, store, test, bit_of(x, k));
        bits = put(rt, bits, k, edge);
    }
    bits
}

/// An integer shifted to the left, in so many bits.
fn moved(rt: &impl Abort, store: &Bdd, x: &Bitvec, places: u32, width: u32) -> Bitvec {
    let zero = store.constant(false);
    let mut bits = Bitvec::of(&[zero]);
    for k in 0..width {
        let edge = if k < places {
            zero
        } else {
            bit_of(x, k - places)
        };
        bits = put(rt, bits, k, edge);
    }
    bits
}

/// The product of two integers: a row of the first for each bit of the second, at the whole width.
pub fn rows_added(rt: &impl Abort, store: &mut Bdd, x: &Bitvec, y: &Bitvec) -> Bitvec {
    let width = x.len() + y.len();
    let zero = store.constant(false);
    let mut product = Bitvec::of(&[zero]);
    for k in 0..width {
        let row = moved(rt, store, x, k, width);
        let row = integer_where(rt, store, bit_of(y, k), &row);
        product = sum(rt, store, &product, &row, zero, width);
    }
    product
}

/// One of two integers.
fn choose_integer(rt: &impl Abort, store: &mut Bdd, test: Edge, x: &Bitvec, y: &Bitvec) -> Bitvec {
    let first = choose(rt, store, test, bit_of(x, 0), bit_of(y, 0));
    let mut bits = Bitvec::of(&[first]);
    for k in 1..x.len().max(y.len()) {
        let edge = choose(rt, store, test, bit_of(x, k), bit_of(y, k));
        bits = put(rt, bits, k, edge);
    }
    bits
}

/// The quotient and the remainder of two integers without sign, by restoring division. A quotient by 0 is 0.
fn restored(rt: &impl Abort, store: &mut Bdd, x: &Bitvec, y: &Bitvec) -> (Bitvec, Bitvec) {
    let zero = store.constant(false);
    let width = x.len().max(y.len()) + 1;
    let mut quotient = Bitvec::of(&[zero]);
    let mut rest = Bitvec::of(&[zero]);
    for turn in 0..x.len() {
        rest = moved(rt, store, &rest, 1, width);
        let digit = Bitvec::of(&[x.at(x.len() - 1 - turn), zero]);
        rest = sum(rt, store, &rest, &digit, zero, width);
        let less = difference(rt, store, &rest, y, width);
        let is_less = less.at(less.len() - 1);
        rest = choose_integer(rt, store, is_less, &rest, &less);
        let digit = complement(rt, store, is_less);
        quotient = moved(rt, store, &quotient, 1, x.len() + 1);
        quotient = sum(
            rt,
            store,
            &quotient,
            &Bitvec::of(&[digit, zero]),
            zero,
            x.len() + 1,
        );
    }
    let nothing = Bitvec::of(&[zero]);
    let by_zero = all_equal(rt, store, y, &nothing);
    (
        choose_integer(rt, store, by_zero, &nothing, &quotient),
        rest,
    )
}

/// The quotient rounded down and its remainder.
pub fn floor_by_restoring(
    rt: &impl Abort,
    store: &mut Bdd,
    x: &Bitvec,
    y: &Bitvec,
) -> (Bitvec, Bitvec) {
    let zero = store.constant(false);
    let nothing = Bitvec::of(&[zero]);
    let (sign_x, sign_y) = (x.at(x.len() - 1), y.at(y.len() - 1));
    let width = x.len().max(y.len()) + 1;
    let a = negate_where(rt, store, sign_x, x, width);
    let b = negate_where(rt, store, sign_y, y, width);
    let (quotient, rest) = restored(rt, store, &a, &b);
    let signs_differ = differ(rt, store, sign_x, sign_y);
    let quotient = negate_where(rt, store, signs_differ, &quotient, width);
    let rest = negate_where(rt, store, sign_x, &rest, width);
    let whole = all_equal(rt, store, &rest, &nothing);
    let by_zero = all_equal(rt, store, y, &nothing);
    let keeps = either(rt, store, whole, by_zero);
    let mends = complement(rt, store, keeps);
    let mends = both(rt, store, mends, signs_differ);
    let more = integer_where(rt, store, mends, y);
    let less = Bitvec::of(&[mends]);
    (
        sum(rt, store, &quotient, &less, zero, width),
        sum(rt, store, &rest, &more, zero, width),
    )
}

/// An integer shifted by a count of five bits: a barrel to the left, one to the right, and the one that the sign picks.
pub fn barrel_shift(rt: &impl Abort, store: &mut Bdd, x: &Bitvec, count: &Bitvec) -> Bitvec {
    let width = x.len().min(100) + 16;
    let (mut left, mut right) = (moved(rt, store, x, 0, width), moved(rt, store, x, 0, width));
    let sign = count.at(count.len() - 1);
    let amount = negate_where(rt, store, sign, count, 5);
    let mut places = 1u32;
    for k in 0..5u32 {
        let test = bit_of(&amount, k);
        let further = moved(rt, store, &left, places, width);
        left = choose_integer(rt, store, test, &further, &left);
        let nearer = dropped(rt, &right, places);
        right = choose_integer(rt, store, test, &nearer, &right);
        places = places.checked_mul(2).expect(rt, "a place");
    }
    choose_integer(rt, store, sign, &right, &left)
}

/// An integer without so many of its lowest bits.
fn dropped(rt: &impl Abort, x: &Bitvec, places: u32) -> Bitvec {
    let mut bits = Bitvec::of(&[bit_of(x, places)]);
    for k in 1..x.len() {
        assert!(rt; places < 1_000);
        bits = put(rt, bits, k, bit_of(x, k + places));
    }
    bits
}
