//! Refutations that are found by a small search, whole and with each byte spoiled in turn, judged also by the plain judge.

use super::plain::plainly_judged;
use super::rows::judged;
use lrat_tool::Judgement;
use std::alloc::Global;
use std::process::Abort;
use std::thread::Threads;

/// How many variables a formula has.
const VARIABLES: u32 = 4;

/// What stands in the place of a byte.
const OTHERS: &[u8; 16] = b"0123456789- \ndcp";

/// A clause: its variables, and the values at which none of its literals is true, by bits.
#[derive(Clone, Copy)]
struct Cube {
    variables: u32,
    values: u32,
}

impl Cube {
    /// Whether it has no variable from this one on, and the values make each of its literals false.
    fn is_false(&self, below: u32, values: u32) -> bool {
        below < 32 && self.variables >> below == 0 && values & self.variables == self.values
    }
}

/// The next number of a sequence that looks random (Knuth's linear congruences).
fn next(seed: &mut u64) -> u32 {
    *seed = seed
        .wrapping_mul(6_364_136_223_846_793_005)
        .wrapping_add(1_442_695_040_888_963_407);
    ((*seed >> 33) & 0x7fff_ffff) as u32
}

/// The number of the first clause that values make false, from 1.
fn first_false(clauses: &[Cube], below: u32, values: u32) -> Option<u32> {
    let mut number: u32 = 1;
    for clause in clauses {
        if clause.is_false(below, values) {
            return Some(number);
        }
        number = number.saturating_add(1);
    }
    None
}

/// Random clauses of two variables or more, of which each assignment makes one false.
fn clauses(rt: &impl Abort, alloc: Global, seed: &mut u64) -> Vec<Cube> {
    let mut clauses: Vec<Cube> = Vec::new(alloc);
    for values in 0..1 << VARIABLES {
        exclude(rt, &mut clauses, values, seed);
    }
    clauses
}

/// Puts a random clause last that these values make false, where none is there.
fn exclude(rt: &impl Abort, clauses: &mut Vec<Cube>, values: u32, seed: &mut u64) {
    if first_false(clauses, VARIABLES, values).is_none() {
        let all: u32 = 15;
        let drawn = next(seed) & all;
        let variables = if drawn & drawn.saturating_sub(1) == 0 {
            all
        } else {
            drawn
        };
        let values = values & variables;
        assert!(rt; clauses.push(Cube { variables, values }).is_ok());
    }
}

fn write(rt: &impl Abort, alloc: Global, text: &mut Vec<u8>, number: i64, behind: &str) {
    let word = format!(in alloc; "{number}{behind}").expect(rt, "no memory");
    assert!(rt; text.extend_from_slice(word.as_bytes()).is_ok());
}

/// The literals of a clause. Variables are so far apart.
fn write_clause(rt: &impl Abort, alloc: Global, text: &mut Vec<u8>, clause: Cube, apart: i64) {
    let mut name: i64 = 0;
    for variable in 0..VARIABLES {
        name = name.saturating_add(apart);
        if clause.variables >> variable & 1 == 1 {
            let is_true = clause.values >> variable & 1 == 1;
            let literal = if is_true {
                0i64.saturating_sub(name)
            } else {
                name
            };
            write(rt, alloc, text, literal, " ");
        }
    }
}

fn formula_text(rt: &impl Abort, alloc: Global, clauses: &[Cube], apart: i64) -> Vec<u8> {
    let mut text = Vec::from_slice(alloc, b"p cnf ").expect(rt, "no memory");
    let most = apart.saturating_mul(i64::from(VARIABLES));
    write(rt, alloc, &mut text, most, " ");
    write(rt, alloc, &mut text, clauses.len() as i64, "\n");
    for clause in clauses {
        write_clause(rt, alloc, &mut text, *clause, apart);
        write(rt, alloc, &mut text, 0, "\n");
    }
    text
}

/// The numbers of clauses that are false where the first variables have these values, for each values: each is one of the formula,
/// or an entry by the two of one variable more.
fn log_text(rt: &impl Abort, alloc: Global, clauses: &[Cube], apart: i64) -> Vec<u8> {
    let mut text = Vec::new(alloc);
    let mut last = u32::try_from(clauses.len()).unwrap_or(0);
    let mut longer: Vec<u32> = Vec::new(alloc);
    for shorter in 0..VARIABLES + 1 {
        let below = VARIABLES - shorter;
        let mut numbers: Vec<u32> = Vec::new(alloc);
        for values in 0..1u32 << below {
            let number = match first_false(clauses, below, values) {
                Some(number) => number,
                None => {
                    last = last.saturating_add(1);
                    let variables = (1u32 << below).saturating_sub(1);
                    write(rt, alloc, &mut text, i64::from(last), " ");
                    write_clause(rt, alloc, &mut text, Cube { variables, values }, apart);
                    write(rt, alloc, &mut text, 0, " ");
                    for hint in [values, values | 1 << below] {
                        let hint = longer.get(hint as usize).copied().unwrap_or(0);
                        write(rt, alloc, &mut text, i64::from(hint), " ");
                    }
                    write(rt, alloc, &mut text, 0, "\n");
                    last
                }
            };
            assert!(rt; numbers.push(number).is_ok());
        }
        longer = numbers;
    }
    text
}

/// Compares the judgement by so many workers with the plain one.
fn compare<R: Abort + Threads + Sync>(
    rt: &R,
    alloc: Global,
    cnf: &[u8],
    log: &[u8],
    workers: u32,
) -> Judgement {
    assert!(rt; 1 <= workers && workers <= 8);
    let given = judged(rt, alloc, cnf, log, workers).expect(rt, "no memory");
    let plain = plainly_judged(rt, alloc, cnf, log);
    assert!(rt; given == Some(plain), "{given:?} {plain:?}");
    plain
}

/// The text with another byte at a place.
fn spoiled(rt: &impl Abort, alloc: Global, text: &[u8], place: usize, seed: &mut u64) -> Vec<u8> {
    let mut copy = Vec::from_slice(alloc, text).expect(rt, "no memory");
    if place < copy.len() {
        copy[place] = OTHERS[(next(seed) % 16) as usize];
    }
    copy
}

/// Judges a random refutation, and with each byte of the one text and of the other spoiled.
fn try_refutation<R: Abort + Threads + Sync>(rt: &R, alloc: Global, number: u64, apart: i64) {
    let mut seed = number;
    let clauses = clauses(rt, alloc, &mut seed);
    let cnf = formula_text(rt, alloc, &clauses, apart);
    let log = log_text(rt, alloc, &clauses, apart);
    let judgement = compare(rt, alloc, &cnf, &log, 2);
    assert!(rt; judgement == Judgement::Verified);
    for place in 0..cnf.len() {
        let spoiled = spoiled(rt, alloc, &cnf, place, &mut seed);
        compare(rt, alloc, &spoiled, &log, 1);
    }
    for place in 0..log.len() {
        let spoiled = spoiled(rt, alloc, &log, place, &mut seed);
        compare(rt, alloc, &cnf, &spoiled, 1 + next(&mut seed) % 8);
    }
}

/// Seeds, and how far the variables are apart: those that are far are numbered anew.
#[test]
fn random_refutations(rt: HostRuntime) {
    for (number, apart) in [
        (1, 1),
        (2, 1),
        (3, 1),
        (4, 7),
        (5, 1_999),
        (6, 2_500_000),
        (7, 2_400_001),
    ] {
        try_refutation(&rt, rt.alloc(), number, apart);
    }
}
