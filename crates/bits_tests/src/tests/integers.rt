//! What no clause says: that calls on constants succeed without a node, and that the rest run full. What the calls
//! answer is compared with the machine's own integers.

ghost use Rattle.std.specs.Prelude.{◌≡◌, ◌<◌, length};
ghost use Rattle.std.specs.List.{All};

mod fixed;

use self::fixed::{Fixed, check, integer, is_set, number_of};
use bfr_store::{Bits, Bitvec, Edge, Full};
use std::process::Abort;
use sym_bits::{
    add, and_bits, bit_at, fits, floor_mod, int_length, less, narrow, negate, or_bits, same, shift,
    times, truncate_rem, xor_bits,
};

/// How many bits the integers from -8 to 7 have beside their sign.
const LENGTHS: [i128; 16] = [3, 3, 3, 3, 2, 2, 1, 0, 0, 1, 2, 2, 3, 3, 3, 3];

/// Stops where the answer is another integer.
fn expect(rt: &impl Abort, what: &str, got: Result<Bitvec, Full>, wanted: i128) {
    let bits = got.expect(rt, what);
    assert!(rt; number_of(rt, &bits) == wanted, "{what}");
}

/// Stops where the answer is another truth value.
fn expect_truth(rt: &impl Abort, what: &str, got: Result<Edge, Full>, wanted: bool) {
    let edge = got.expect(rt, what);
    assert!(rt; is_set(rt, edge) == wanted, "{what}");
}

/// Stops where one of the two answers is another integer.
fn expect_two(
    rt: &impl Abort,
    what: &str,
    got: Result<(Bitvec, Bitvec), Full>,
    wanted: (i128, i128),
) {
    let (first, second) = got.expect(rt, what);
    assert!(rt; number_of(rt, &first) == wanted.0, "{what}");
    assert!(rt; number_of(rt, &second) == wanted.1, "{what}");
}

/// The sum, or the end of the test.
fn plus(rt: &impl Abort, a: i128, b: i128) -> i128 {
    a.checked_add(b).expect(rt, "a sum")
}

/// The product, or the end of the test.
fn product(rt: &impl Abort, a: i128, b: i128) -> i128 {
    a.checked_mul(b).expect(rt, "a product")
}

/// The quotient rounded toward 0, and 0 for a divisor of 0.
fn toward_zero(rt: &impl Abort, a: i128, b: i128) -> i128 {
    if b == 0 {
        0
    } else {
        a.checked_div(b).expect(rt, "a quotient")
    }
}

/// The quotient rounded down, and 0 for a divisor of 0.
fn rounded_down(rt: &impl Abort, a: i128, b: i128) -> i128 {
    let quotient = toward_zero(rt, a, b);
    let rest = rest_of(rt, a, b, quotient);
    if rest != 0 && (rest < 0) != (b < 0) && b != 0 {
        plus(rt, quotient, -1)
    } else {
        quotient
    }
}

/// What a quotient leaves.
fn rest_of(rt: &impl Abort, a: i128, b: i128, quotient: i128) -> i128 {
    let whole = product(rt, quotient, b);
    a.checked_sub(whole).expect(rt, "a rest")
}

/// Two to the power of a count from 0 to 8.
fn power(rt: &impl Abort, count: i128) -> i128 {
    let mut value = 1;
    for k in 0..8u8 {
        if i128::from(k) < count {
            value = product(rt, value, 2);
        }
    }
    value
}

/// A shift to the left, or one to the right that is rounded down.
fn shifted(rt: &impl Abort, a: i128, count: i128) -> i128 {
    if count >= 0 {
        product(rt, a, power(rt, count))
    } else {
        let places = 0i128.checked_sub(count).expect(rt, "a count");
        rounded_down(rt, a, power(rt, places))
    }
}

/// The calls on two integers of four bits that answer an integer.
fn compare_integers(rt: &impl Abort, a: i128, b: i128) {
    let mut store = Fixed { limit: 0 };
    let (x, y) = (integer(rt, a, 4), integer(rt, b, 4));
    assert!(rt; x.len() == 4 && y.len() == 4);
    expect(rt, "add", add(&mut store, &x, &y), plus(rt, a, b));
    expect(rt, "times", times(&mut store, &x, &y), product(rt, a, b));
    expect(rt, "and", and_bits(&mut store, &x, &y), a & b);
    expect(rt, "or", or_bits(&mut store, &x, &y), a | b);
    expect(rt, "xor", xor_bits(&mut store, &x, &y), a ^ b);
    let (down, toward) = (rounded_down(rt, a, b), toward_zero(rt, a, b));
    let wanted = (down, rest_of(rt, a, b, down));
    expect_two(rt, "floor_mod", floor_mod(&mut store, &x, &y), wanted);
    let wanted = (toward, rest_of(rt, a, b, toward));
    expect_two(rt, "truncate_rem", truncate_rem(&mut store, &x, &y), wanted);
}

/// The other calls on two integers of four bits.
fn compare_others(rt: &impl Abort, a: i128, b: i128) {
    let mut store = Fixed { limit: 0 };
    let (x, y) = (integer(rt, a, 4), integer(rt, b, 4));
    assert!(rt; x.len() == 4 && y.len() == 4);
    expect_truth(rt, "less", less(&mut store, &x, &y), a < b);
    expect_truth(rt, "same", same(&mut store, &x, &y), a == b);
    let place = if a < 0 {
        0
    } else {
        0i128.checked_sub(a).expect(rt, "a place")
    };
    let bit = shifted(rt, b, place) % 2 != 0;
    expect_truth(rt, "bit_at", bit_at(&mut store, &x, &y), bit);
    let answer = shift(&mut store, &x, &y).expect(rt, "shift");
    assert!(rt; !is_set(rt, answer.over));
    assert!(rt; number_of(rt, &answer.bits) == shifted(rt, a, b), "shift");
}

#[test]
fn pairs_of_small_integers(rt: HostRuntime) {
    for i in 0..16u8 {
        let a = i128::from(i) - 8;
        let mut store = Fixed { limit: 0 };
        let x = integer(&rt, a, 4);
        assert!(rt; x.len() == 4);
        expect(&rt, "negate", negate(&mut store, &x), -a);
        let wanted = LENGTHS[i as usize];
        expect(&rt, "int_length", int_length(&mut store, &x), wanted);
        for j in 0..16u8 {
            let b = i128::from(j) - 8;
            compare_integers(&rt, a, b);
            compare_others(&rt, a, b);
        }
    }
}

/// An integer of 128 constant bits.
fn wide(rt: &impl Abort, value: i128) -> Bitvec
    ensures live { All (λ e. e.number < 6) result }
    ensures width { length result ≡ 128 }
{
    let bits = integer(rt, value, 128);
    assert!(rt; bits.len() == 128);
    bits
}

/// Sums and products of the least and the greatest integer.
fn widest_sums(rt: &impl Abort, least: &Bitvec, most: &Bitvec)
    requires least { All (λ e. e.number < 6) least.now }
    requires most { All (λ e. e.number < 6) most.now }
    requires least_width { length least.now ≡ 128 }
    requires most_width { length most.now ≡ 128 }
{
    let mut store = Fixed { limit: 0 };
    let top = times(&mut store, least, least).expect(rt, "times");
    assert!(rt; top.len() == 256 && !is_set(rt, top.at(255)) && is_set(rt, top.at(254)));
    let negated = times(&mut store, most, &wide(rt, -1));
    expect(rt, "times", negated, -i128::MAX);
    let over = add(&mut store, most, &wide(rt, 1)).expect(rt, "add");
    assert!(rt; over.len() == 129);
    check(rt, &over);
    expect_truth(rt, "fits", fits(&mut store, &over), false);
    expect_truth(rt, "fits", fits(&mut store, least), true);
    let back = add(&mut store, &over, &wide(rt, -1)).expect(rt, "add");
    let back = narrow(&back);
    assert!(rt; back.len() == 128 && number_of(rt, &back) == i128::MAX);
}

#[test]
fn the_widest_integers(rt: HostRuntime) {
    let mut store = Fixed { limit: 0 };
    let (least, most) = (wide(&rt, i128::MIN), wide(&rt, i128::MAX));
    widest_sums(&rt, &least, &most);
    let (quotient, rest) = floor_mod(&mut store, &least, &wide(&rt, -1)).expect(&rt, "floor_mod");
    assert!(rt; quotient.len() == 129 && !is_set(&rt, quotient.at(128)));
    assert!(rt; number_of(&rt, &rest) == 0);
    let wanted = (i128::MIN / 3, i128::MIN % 3);
    let divided = truncate_rem(&mut store, &least, &wide(&rt, 3));
    expect_two(&rt, "truncate_rem", divided, wanted);
    expect(&rt, "int_length", int_length(&mut store, &least), 127);
}

/// A shift of `a` by `count`: the result, or none where it leaves 128 bits.
fn shifted_by(rt: &impl Abort, a: i128, count: i128) -> Option<i128> {
    let mut store = Fixed { limit: 0 };
    let (x, y) = (wide(rt, a), wide(rt, count));
    let answer = shift(&mut store, &x, &y).expect(rt, "shift");
    if is_set(rt, answer.over) {
        None
    } else {
        Some(number_of(rt, &answer.bits))
    }
}

/// An integer, a count, and the integer shifted by it where that fits.
const SHIFTS: [(i128, i128, Option<i128>); 12] = [
    (1, 126, Some(85070591730234615865843651857942052864)),
    (1, 127, None),
    (-1, 127, Some(i128::MIN)),
    (-1, 128, None),
    (0, i128::MAX, Some(0)),
    (5, i128::MAX, None),
    (i128::MAX, -127, Some(0)),
    (i128::MIN, -127, Some(-1)),
    (i128::MIN, -128, Some(-1)),
    (-7, -1, Some(-4)),
    (i128::MIN, i128::MIN, Some(-1)),
    (i128::MAX, i128::MIN, Some(0)),
];

#[test]
fn shifts_near_and_far(rt: HostRuntime) {
    for (a, count, wanted) in &SHIFTS {
        assert!(rt; shifted_by(&rt, *a, *count) == *wanted, "{a} {count}");
    }
}

#[test]
fn a_product_runs_full(rt: HostRuntime) {
    let mut store = Fixed { limit: 0 };
    let (first, second, none) = (Edge { number: 2 }, Edge { number: 4 }, Edge { number: 1 });
    let x = Bitvec::of(&[first, second, none]);
    check(&rt, &x);
    assert!(rt; x.len() == 3);
    let twice = times(&mut store, &x, &wide(&rt, 2)).expect(&rt, "a row alone");
    assert!(rt; twice.len() == 4 && twice.at(1) == first && twice.at(2) == second);
    assert!(rt; times(&mut store, &x, &wide(&rt, 3)).is_err());
    assert!(rt; store.count() == store.limit());
}
