//! Integers of bit functions over decision diagrams: what each call makes of two integers of four bits in eight variables,
//! under each of their 256 assignments, beside the primitives on integers.

ghost use Rattle.std.specs.Prelude.{◌≡◌, length, IfOk};

use super::integers::{check, integer_of};
use bdd_store::Bdd;
use bfr_store::{Bits, Bitvec, Edge};
use gl_logic::{Assignment, NoMemory, Prim};
use int_prims::{apply_int, is_operation, is_test, test_int};
use std::alloc::Global;
use std::process::Abort;
use std::test::Fail;
use sym_bits::{
    Shifted, add, and_bits, bit_at, complement, floor_mod, int_length, less, negate, or_bits, same,
    shift, times, truncate_rem, xor_bits,
};

/// The primitives whose value is an integer.
const OPERATIONS: [Prim; 13] = [
    Prim::BinaryPlus,
    Prim::BinaryTimes,
    Prim::UnaryMinus,
    Prim::Floor,
    Prim::Mod,
    Prim::Truncate,
    Prim::Rem,
    Prim::Ash,
    Prim::BinaryLogand,
    Prim::BinaryLogior,
    Prim::BinaryLogxor,
    Prim::Lognot,
    Prim::IntegerLength,
];

/// A shift that never leaves 128 bits.
fn shifted(rt: &impl Abort, store: &mut Bdd, answer: Shifted) -> Bitvec {
    assert!(rt;
        answer.over == store.constant(false),
        "a near shift is over"
    );
    answer.bits
}

/// The quotients and the remainders.
fn divided(rt: &impl Abort, store: &mut Bdd, prim: Prim, x: &Bitvec, y: &Bitvec) -> Bitvec {
    check(rt, store, x);
    check(rt, store, y);
    assert!(rt; x.len() <= 128 && y.len() <= 128);
    match prim {
        Prim::Floor => floor_mod(store, x, y).expect(rt, "floor").0,
        Prim::Mod => floor_mod(store, x, y).expect(rt, "mod").1,
        Prim::Truncate => truncate_rem(store, x, y).expect(rt, "truncate").0,
        _ => truncate_rem(store, x, y).expect(rt, "rem").1,
    }
}

/// What a call makes of two lists of bits.
fn made(rt: &impl Abort, store: &mut Bdd, prim: Prim, x: &Bitvec, y: &Bitvec) -> Bitvec {
    check(rt, store, x);
    check(rt, store, y);
    assert!(rt; x.len() <= 128 && y.len() <= 128);
    match prim {
        Prim::BinaryPlus => add(store, x, y).expect(rt, "add"),
        Prim::BinaryTimes => times(store, x, y).expect(rt, "times"),
        Prim::UnaryMinus => negate(store, x).expect(rt, "negate"),
        Prim::Ash => {
            let answer = shift(store, x, y).expect(rt, "shift");
            shifted(rt, store, answer)
        }
        Prim::BinaryLogand => and_bits(store, x, y).expect(rt, "and_bits"),
        Prim::BinaryLogior => or_bits(store, x, y).expect(rt, "or_bits"),
        Prim::BinaryLogxor => xor_bits(store, x, y).expect(rt, "xor_bits"),
        Prim::Lognot => complement(store, x).expect(rt, "complement"),
        Prim::IntegerLength => int_length(store, x).expect(rt, "int_length"),
        _ => divided(rt, store, prim, x, y),
    }
}

/// The eight variables: bit `k` of the pattern for variable `k`.
fn assignment_of(alloc: Global, pattern: u8) -> Result<Assignment, NoMemory>
    ensures { IfOk result (λ a. length a ≡ 8) }
{
    let mut assignment = Assignment::new(alloc, 8)?;
    assignment.set(0, pattern % 2 == 1);
    assignment.set(1, pattern / 2 % 2 == 1);
    assignment.set(2, pattern / 4 % 2 == 1);
    assignment.set(3, pattern / 8 % 2 == 1);
    assignment.set(4, pattern / 16 % 2 == 1);
    assignment.set(5, pattern / 32 % 2 == 1);
    assignment.set(6, pattern / 64 % 2 == 1);
    assignment.set(7, pattern / 128 == 1);
    Ok(assignment)
}

/// The truth of an edge under the assignment of eight variables.
fn truth(rt: &impl Abort, store: &mut Bdd, edge: Edge, assignment: &Assignment) -> bool
    requires { length assignment.now ≡ 8 }
{
    assert!(rt; store.is_live(edge) && store.width() == 8);
    store.value(edge, assignment)
}

/// The integer that a list is under the assignment.
fn number(rt: &impl Abort, store: &mut Bdd, bits: &Bitvec, assignment: &Assignment) -> i128
    requires { length assignment.now ≡ 8 }
{
    let last = bits.len() - 1;
    let mut value = if truth(rt, store, bits.at(last), assignment) {
        -1i128
    } else {
        0
    };
    for turn in 0..last {
        let twice = value.checked_mul(2).expect(rt, "more than 128 bits");
        let digit = i128::from(truth(rt, store, bits.at(last - 1 - turn), assignment));
        value = twice.checked_add(digit).expect(rt, "more than 128 bits");
    }
    value
}

/// The integer of four bits, the last one its sign.
fn of_four_bits(bits: u8) -> i128 {
    if bits < 8 {
        i128::from(bits)
    } else {
        i128::from(bits) - 16
    }
}

/// One call on all pairs of integers.
fn compare(rt: &impl Abort, alloc: Global, prim: Prim) -> Result<(), NoMemory> {
    let mut store = Bdd::new(alloc, 10_000)?;
    let x = integer_of(rt, &mut store, 0, 1, 4);
    let y = integer_of(rt, &mut store, 4, 1, 4);
    let answer = made(rt, &mut store, prim, &x, &y);
    assert!(rt; is_operation(prim));
    for pattern in 0..=255u8 {
        let assignment = assignment_of(alloc, pattern)?;
        let (a, b) = (of_four_bits(pattern % 16), of_four_bits(pattern / 16));
        let value = number(rt, &mut store, &answer, &assignment);
        assert!(rt;
            apply_int(prim, a, b) == Ok(value),
            "{prim:?} of {a} and {b} is {value}"
        );
    }
    Ok(())
}

#[test]
fn integers_of_all_pairs(rt: HostRuntime) -> Result<(), Fail> {
    for prim in &OPERATIONS {
        compare(&rt, rt.alloc(), *prim)?;
    }
    Ok(())
}

/// The two tests that have a primitive of their own, and equality, on one pair.
fn expected(rt: &impl Abort, call: u8, a: i128, b: i128) -> bool {
    assert!(rt; is_test(Prim::Less) && is_test(Prim::Logbitp));
    match call {
        0 => test_int(Prim::Less, a, b),
        1 => test_int(Prim::Logbitp, a, b),
        _ => a == b,
    }
}

/// The calls that answer an edge.
fn asked(rt: &impl Abort, store: &mut Bdd, call: u8, x: &Bitvec, y: &Bitvec) -> Edge {
    check(rt, store, x);
    check(rt, store, y);
    match call {
        0 => less(store, x, y).expect(rt, "less"),
        1 => bit_at(store, x, y).expect(rt, "bit_at"),
        _ => same(store, x, y).expect(rt, "same"),
    }
}

#[test]
fn tests_of_all_pairs(rt: HostRuntime) -> Result<(), Fail> {
    for call in 0..3u8 {
        let mut store = Bdd::new(rt.alloc(), 10_000)?;
        let x = integer_of(&rt, &mut store, 0, 1, 4);
        let y = integer_of(&rt, &mut store, 4, 1, 4);
        let answer = asked(&rt, &mut store, call, &x, &y);
        for pattern in 0..=255u8 {
            let assignment = assignment_of(rt.alloc(), pattern)?;
            let (a, b) = (of_four_bits(pattern % 16), of_four_bits(pattern / 16));
            let is_true = truth(&rt, &mut store, answer, &assignment);
            assert!(rt;
                expected(&rt, call, a, b) == is_true,
                "test {call} of {a} and {b}"
            );
        }
    }
    Ok(())
}
