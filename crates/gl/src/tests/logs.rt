//! Judgements on a formula and a log: their lines and statuses, texts that are too long, words, and calls that fail.

use super::rows::{Fails, NONE_FAILS, USAGE, compare, outcome_over};
use std::alloc::{AllocError, Global};
use std::process::Abort;
use std::test::Fail;
use std::thread::Threads;

/// Clauses over two variables that nothing satisfies.
const CNF: &str = "p cnf 2 4\n1 2 0\n-1 2 0\n1 -2 0\n-1 -2 0\n";

/// A log that refutes it.
const LOG: &str = "5 2 0 1 2 0\n6 0 5 3 4 0\n";

/// A log, the line that is written, and the code of the status. Each is judged by 1, 2, 3 and 8 workers.
const LOGS: [(&str, &str, u8); 9] = [
    (LOG, "VERIFIED\n", 0),
    ("5 0 1 2 0\n", "NOT SHOWN 1\n", 1),
    ("5 2 0 1 2 0\n", "NO REFUTATION\n", 1),
    ("4 2 0 1 2 0\n", "BAD log 1\n", 2),
    ("5 2 0 -1 2 0\n", "RAT 1\n", 3),
    ("5 2 0 1 2 0\n6 0 5 3 4 7 -9 0\n", "RAT 2\n", 3),
    ("5 2 0 1 2 0\n6 0 5 5 3 4 0\n", "NOT SHOWN 2\n", 1),
    ("5 2 0 1 2 0\n6 0 5 3 4 0\noops\n", "BAD log 3\n", 2),
    ("9 2 0 1 2 0\n4294967295 0 9 3 4 0\n", "VERIFIED\n", 0),
];

const WORKERS: [&str; 4] = [
    "lrat c l",
    "lrat --workers 2 c l",
    "lrat c --workers=3 l",
    "lrat c l --workers 8",
];

/// Words, what is written, and the code of the status, over the formula `c`, the log `l`, and the empty book `lrat`.
const WORDS: [(&str, &str, u8); 17] = [
    ("lrat", USAGE, 64),
    ("lrat c", USAGE, 64),
    ("lrat c l l", USAGE, 64),
    ("lrat --workers 9 c l", USAGE, 64),
    ("lrat --workers 0 c l", USAGE, 64),
    ("lrat --workers= c l", USAGE, 64),
    ("lrat --workers 1 --workers 1 c l", USAGE, 64),
    ("lrat --steps 5 c l", USAGE, 64),
    ("lrat --proof cnf c l", USAGE, 64),
    ("lrat --help", USAGE, 64),
    ("--workers 2 lrat c l", USAGE, 64),
    ("-- lrat c l", USAGE, 64),
    ("LRAT c l", USAGE, 64),
    (
        "--workers 2 lrat",
        "DONE proved=0 vacuous=0 refuted=0 undecided=0\n",
        0,
    ),
    (
        "-- lrat",
        "DONE proved=0 vacuous=0 refuted=0 undecided=0\n",
        0,
    ),
    ("lrat c c", "BAD log 1\n", 2),
    ("lrat c none", "", 4),
];

/// The call of the shelf and that of the sink that fail, what is written, and the code of the status. The calls of the shelf
/// are the opening, the bytes and the end of each text, those of the sink the line and the flush.
const FAULTS: [(u64, u64, &str, u8); 9] = [
    (1, 0, "", 4),
    (2, 0, "", 4),
    (3, 0, "", 4),
    (4, 0, "", 4),
    (5, 0, "", 4),
    (6, 0, "", 4),
    (7, 3, "VERIFIED\n", 0),
    (0, 1, "", 5),
    (0, 2, "VERIFIED\n", 5),
];

/// A text of a byte so often, with this behind it.
fn filled(alloc: Global, byte: u8, count: usize, rest: &str) -> Result<Vec<u8>, AllocError> {
    let mut text = Vec::new(alloc);
    text.resize(count, byte)?;
    text.extend_from_slice(rest.as_bytes())?;
    Ok(text)
}

/// The formula `c`, the log `l`, and the empty book `lrat`.
fn texts(alloc: Global, cnf: Vec<u8>, log: Vec<u8>) -> Result<Vec<(String, Vec<u8>)>, AllocError> {
    let mut texts = Vec::new(alloc);
    texts.push((String::from_str(alloc, "c")?, cnf))?;
    texts.push((String::from_str(alloc, "l")?, log))?;
    texts.push((String::from_str(alloc, "lrat")?, Vec::new(alloc)))?;
    Ok(texts)
}

/// Compares what a run over these texts writes, and the code of its status.
fn gives<R: AllocGlobal + Threads + Sync + Abort>(
    rt: &R,
    words: &str,
    log: &str,
    fails: Fails,
    want: (&str, u8),
) -> Result<(), Fail> {
    let alloc = rt.alloc();
    let texts = texts(
        alloc,
        CNF.as_bytes().to_vec(alloc)?,
        log.as_bytes().to_vec(alloc)?,
    )?;
    let given = outcome_over(rt, words, texts, 1000, fails)?;
    compare(
        rt,
        &given,
        (words, log, fails),
        (want.0.as_bytes(), want.1, 0),
    );
    Ok(())
}

/// Compares what is said of long texts.
fn long_gives<R: AllocGlobal + Threads + Sync + Abort>(
    rt: &R,
    cnf: Vec<u8>,
    log: Vec<u8>,
    want: &str,
) -> Result<(), Fail> {
    let texts = texts(rt.alloc(), cnf, log)?;
    let given = outcome_over(rt, "lrat c l", texts, 1000, NONE_FAILS)?;
    compare(
        rt,
        &given,
        ("lrat c l", "", NONE_FAILS),
        (want.as_bytes(), 2, 0),
    );
    Ok(())
}

fn try_logs<R: AllocGlobal + Threads + Sync + Abort>(rt: &R) -> Result<(), Fail> {
    for (log, line, code) in LOGS.iter().copied() {
        for words in WORKERS.iter().copied() {
            gives(rt, words, log, NONE_FAILS, (line, code))?;
        }
    }
    Ok(())
}

fn try_words<R: AllocGlobal + Threads + Sync + Abort>(rt: &R) -> Result<(), Fail> {
    for (words, line, code) in WORDS.iter().copied() {
        gives(rt, words, LOG, NONE_FAILS, (line, code))?;
    }
    Ok(())
}

fn try_faults<R: AllocGlobal + Threads + Sync + Abort>(rt: &R) -> Result<(), Fail> {
    for (shelf_call, sink_call, line, code) in FAULTS.iter().copied() {
        gives(rt, "lrat c l", LOG, (shelf_call, sink_call), (line, code))?;
    }
    Ok(())
}

#[test]
fn logs_by_workers(rt: HostRuntime) -> Result<(), Fail> {
    try_logs(&rt)
}

#[test]
fn words_behind_lrat(rt: HostRuntime) -> Result<(), Fail> {
    try_words(&rt)
}

#[test]
fn calls_that_fail(rt: HostRuntime) -> Result<(), Fail> {
    try_faults(&rt)
}

#[test]
fn long_formula(rt: HostRuntime) -> Result<(), Fail> {
    let alloc = rt.alloc();
    let text = filled(alloc, b'c', 67_108_865, "")?;
    long_gives(&rt, text, Vec::new(alloc), "BAD cnf 1\n")
}

#[test]
fn long_formula_of_lines(rt: HostRuntime) -> Result<(), Fail> {
    let alloc = rt.alloc();
    let text = filled(alloc, b'\n', 67_108_865, "")?;
    long_gives(&rt, text, Vec::new(alloc), "BAD cnf 67108865\n")
}

#[test]
fn long_log(rt: HostRuntime) -> Result<(), Fail> {
    let alloc = rt.alloc();
    let text = filled(alloc, b'c', 67_108_863, "\nc")?;
    long_gives(&rt, filled(alloc, b'x', 1, "")?, text, "BAD log 2\n")
}
