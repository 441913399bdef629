//! The tables of small arguments, and the edges of the width.

mod edges;
mod tables;

use gl_logic::Prim;
use int_prims::{apply_int, is_operation, is_test, test_int};
use std::process::Abort;

// the number that a word of a table writes
fn number(word: Option<&str>) -> Option<i128> {
    match word?.parse::<i128>() {
        Ok(value) => Some(value),
        Err(_) => None,
    }
}

// what an operation or a test gives, with 1 for true and none where it is too wide
fn answer(rt: &impl Abort, prim: Prim, a: i128, b: i128) -> Option<i128> {
    if is_test(prim) {
        return Some(i128::from(test_int(prim, a, b)));
    }
    assert!(rt; is_operation(prim));
    apply_int(prim, a, b).ok()
}

// stops where the answer is not what the word of a table writes
fn compare(rt: &impl Abort, prim: Prim, a: i128, b: i128, word: Option<&str>) {
    assert!(rt; answer(rt, prim, a, b) == number(word), "at {a} {b}");
}

// an operation or a test on each pair of so many integers around 0 and so many others
fn check_pairs(rt: &impl Abort, prim: Prim, counts: (u8, u8), table: &str) {
    let mut words = table.split_whitespace();
    for i in 0..counts.0 {
        for j in 0..counts.1 {
            let a = i128::from(i) - i128::from(counts.0 / 2);
            let b = i128::from(j) - i128::from(counts.1 / 2);
            compare(rt, prim, a, b, words.next());
        }
    }
}

// an operation or a test on rows of two arguments and a value
fn check_edges(rt: &impl Abort, prim: Prim, rows: &str) {
    let mut words = rows.split_whitespace();
    for _ in 0..100u8 {
        let (Some(a), Some(b)) = (number(words.next()), number(words.next())) else {
            return;
        };
        compare(rt, prim, a, b, words.next());
    }
}

/// The pairs from -9 to 9.
const PAIRS: (u8, u8) = (19, 19);

/// The integers from -20 to 20, with 0.
const EACH: (u8, u8) = (41, 1);

const SMALL: [(Prim, (u8, u8), &str); 17] = [
    (Prim::BinaryPlus, PAIRS, tables::BINARY_PLUS),
    (Prim::BinaryTimes, PAIRS, tables::BINARY_TIMES),
    (Prim::Floor, PAIRS, tables::FLOOR),
    (Prim::Mod, PAIRS, tables::MOD),
    (Prim::Truncate, PAIRS, tables::TRUNCATE),
    (Prim::Rem, PAIRS, tables::REM),
    (Prim::Ash, PAIRS, tables::ASH),
    (Prim::BinaryLogand, PAIRS, tables::BINARY_LOGAND),
    (Prim::BinaryLogior, PAIRS, tables::BINARY_LOGIOR),
    (Prim::BinaryLogxor, PAIRS, tables::BINARY_LOGXOR),
    (Prim::UnaryMinus, EACH, tables::UNARY_MINUS),
    (Prim::Lognot, EACH, tables::LOGNOT),
    (Prim::IntegerLength, EACH, tables::INTEGER_LENGTH),
    (Prim::Less, PAIRS, tables::LESS),
    (Prim::Logbitp, PAIRS, tables::LOGBITP),
    (Prim::UnsignedByteP, PAIRS, tables::UNSIGNED_BYTE_P),
    (Prim::SignedByteP, PAIRS, tables::SIGNED_BYTE_P),
];

#[test]
fn small_arguments(rt: HostRuntime) {
    for (prim, counts, table) in &SMALL {
        check_pairs(&rt, *prim, *counts, table);
    }
}

const EDGES: [(Prim, &str); 17] = [
    (Prim::BinaryPlus, edges::BINARY_PLUS_EDGES),
    (Prim::BinaryTimes, edges::BINARY_TIMES_EDGES),
    (Prim::UnaryMinus, edges::UNARY_MINUS_EDGES),
    (Prim::Floor, edges::FLOOR_EDGES),
    (Prim::Mod, edges::MOD_EDGES),
    (Prim::Truncate, edges::TRUNCATE_EDGES),
    (Prim::Rem, edges::REM_EDGES),
    (Prim::Ash, edges::ASH_EDGES),
    (Prim::BinaryLogand, edges::BINARY_LOGAND_EDGES),
    (Prim::BinaryLogior, edges::BINARY_LOGIOR_EDGES),
    (Prim::BinaryLogxor, edges::BINARY_LOGXOR_EDGES),
    (Prim::Lognot, edges::LOGNOT_EDGES),
    (Prim::IntegerLength, edges::INTEGER_LENGTH_EDGES),
    (Prim::Less, edges::LESS_EDGES),
    (Prim::Logbitp, edges::LOGBITP_EDGES),
    (Prim::UnsignedByteP, edges::UNSIGNED_BYTE_P_EDGES),
    (Prim::SignedByteP, edges::SIGNED_BYTE_P_EDGES),
];

#[test]
fn edges_of_the_width(rt: HostRuntime) {
    for (prim, rows) in &EDGES {
        check_edges(&rt, *prim, rows);
    }
}
