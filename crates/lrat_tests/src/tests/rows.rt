//! Worked texts of formulas and of logs, and how they are judged by any number of workers.

ghost use Rattle.std.specs.Prelude.{◌≤◌};

use gl_logic::NoMemory;
use lrat_tool::{Judgement, judge};
use std::alloc::Global;
use std::process::Abort;
use std::test::Fail;
use std::thread::Threads;

/// A formula that nothing satisfies: each of its clauses leaves out one assignment of two variables.
const FOUR: &str = "p cnf 2 4\n1 2 0\n-1 2 0\n1 -2 0\n-1 -2 0\n";

/// Texts of a formula and of a log, and the judgement on them.
const ROWS: &[(&str, &str, Judgement)] = &[
    (FOUR, "5 2 0 1 2 0\n6 0 5 3 4 0\n", Judgement::Verified),
    (FOUR, "5 0 1 2 0\n", Judgement::NotShown(1)),
    (FOUR, "5 2 0 1 2 0\n", Judgement::NoRefutation),
    (FOUR, "4 2 0 1 2 0\n", Judgement::BadLog(1)),
    (FOUR, "5 2 0 -1 2 0\n", Judgement::Rat(1)),
    (
        FOUR,
        "5 2 0 1 2 0\n6 0 5 3 4 0\noops\n",
        Judgement::BadLog(3),
    ),
    (
        FOUR,
        "9 2 0 1 2 0\n4294967295 0 9 3 4 0\n",
        Judgement::Verified,
    ),
    (
        FOUR,
        "9 2 0 1 2 0\n4294967296 0 9 3 4 0\n",
        Judgement::BadLog(2),
    ),
    (
        FOUR,
        "5 2 -2 0 99 0\n6 2 0 1 2 0\n7 0 6 3 4 0\n",
        Judgement::Verified,
    ),
    (FOUR, "5 2 2 0 1 2 0\n6 0 5 3 4 0\n", Judgement::Verified),
    (FOUR, "5 2 0 1 2 0\n6 0 5 5 3 4 0\n", Judgement::NotShown(2)),
    (FOUR, "5 2 0 1 2 0\n6 0 5 3 4 7 -9 0\n", Judgement::Rat(2)),
    (FOUR, "5 0 5 0\n6 0 -1 0\n", Judgement::NotShown(1)),
    (
        FOUR,
        "5 2 0 1 2 0\n5 d 5 0\n3 d 0\n6 0 5 3 4 0\n",
        Judgement::Verified,
    ),
    (
        FOUR,
        "5 2 0 1 2 0\n0 d 1 2\n6 0 5 3 4 0\n",
        Judgement::BadLog(2),
    ),
    (
        FOUR,
        "5 2 0 1 2 0\r\nc x\n\n \t\n6 0 5 3 4 0",
        Judgement::Verified,
    ),
    (FOUR, " c x\n5 2 0 1 2 0\n", Judgement::BadLog(1)),
    (FOUR, "5 2147483648 0 0\n", Judgement::BadLog(1)),
    (
        FOUR,
        "5 2147483647 -2147483647 0 0\n6 2 0 1 2 0\n7 0 6 3 4 0\n",
        Judgement::Verified,
    ),
    (
        FOUR,
        "5 2147483647 0 0\n6 2 0 1 2 0\n7 0 6 3 4 0\n",
        Judgement::NotShown(1),
    ),
    (
        FOUR,
        "5 2 -2147483647 0 1 2 0\n6 2147483647 2 0 1 2 0\n7 2 0 5 6 0\n8 0 7 3 4 0\n",
        Judgement::Verified,
    ),
    (
        FOUR,
        "5 2 -2147483647 0 1 2 0\n6 2 0 1 2 0\n7 -2147483646 0 6 3 4 0\n8 0 6 3 4 0\n",
        Judgement::Verified,
    ),
    (
        "p cnf 10000000 4\n10000000 9999999 0\n-10000000 9999999 0\n10000000 -9999999 0\n-10000000 -9999999 0\n",
        "5 9999999 0 1 2 0\n6 0 5 3 4 0\n",
        Judgement::Verified,
    ),
    (
        "p cnf 10000000 3\n10000000 9999999 0\n-10000000 9999999 0\n10000000 -9999999 0\n",
        "5 9999999 0 1 2 0\n6 10000000 0 5 3 0\n7 0 5 6 0\n",
        Judgement::NotShown(3),
    ),
    (FOUR, "5 2 0 1 2 0\n6 0 005 3 4 0\n", Judgement::BadLog(2)),
    (
        FOUR,
        "5 2 0 2 1 0\n6 0 5 99999999999999999999 4 0\n",
        Judgement::NotShown(2),
    ),
    (FOUR, "5 2 0 1 2 0 6 0 5 3 4 0\n", Judgement::BadLog(1)),
    ("p cnf 0 1\n0\n", "", Judgement::NoRefutation),
    ("p cnf 0 1\n0\n", "2 0 1 0\n", Judgement::Verified),
    ("p cnf 0 0", "1 0 0\n", Judgement::NotShown(1)),
    ("c h\np cnf 1 1 1 0\n", "", Judgement::BadCnf(2)),
    ("p cnf 2 1\n1 2\n", "x", Judgement::BadCnf(3)),
    ("p cnf 2 1\n1 2 0 0\n", "x", Judgement::BadCnf(2)),
    ("p cnf 2 1\n1\n3 0\n", "x", Judgement::BadCnf(3)),
    ("p\ncnf 1 1\n1 0\n", "", Judgement::BadCnf(3)),
    ("p cnf 1 2\n1 0\n-1 0\n%\n0\n", "", Judgement::BadCnf(4)),
    (
        "p cnf 2 2 \n1\nc 9\n 0\t-2 0\n",
        "3 1 0 1 0\n4 -2 0 2 0\n",
        Judgement::NoRefutation,
    ),
    (
        "p cnf 1 2\n1 1 0\n-1 0\n",
        "3 0 1 2 0\n",
        Judgement::Verified,
    ),
    ("", "", Judgement::BadCnf(1)),
    ("p cnf 10000001 0\n", "", Judgement::BadCnf(1)),
    ("p cnf 1 100000001\n", "", Judgement::BadCnf(1)),
    ("p cnf 1 1\n+1 0\n", "", Judgement::BadCnf(2)),
    ("p cnf 1 1\n-0 0\n", "", Judgement::BadCnf(2)),
    ("p cnf 01 1\n1 0\n", "", Judgement::BadCnf(1)),
    ("p cnf 1 1\n1 0\n\n\n", "", Judgement::NoRefutation),
    ("p cnf 1 2\n1 0\n\n\n", "", Judgement::BadCnf(5)),
    (FOUR, "5\n", Judgement::BadLog(1)),
    (FOUR, "5 2 0 1 2\n", Judgement::BadLog(1)),
    (FOUR, "5 2 1 2\n", Judgement::BadLog(1)),
    (FOUR, "5 d -1 0\n", Judgement::BadLog(1)),
    (FOUR, "4294967296 d 0\n", Judgement::BadLog(1)),
    (FOUR, "5 2 0 -0 0\n", Judgement::BadLog(1)),
    (FOUR, "-5 2 0 1 2 0\n", Judgement::BadLog(1)),
    (FOUR, "5 2 0 1 2 0\n5 0 5 3 4 0\n", Judgement::BadLog(2)),
    (
        FOUR,
        "5 2 0 1 2 0\n6 0 5 3 4 0\n7 1 0 -1 0\n",
        Judgement::Verified,
    ),
    (
        FOUR,
        "5 2 0 1 2 0\n6 0 6 0\n7 0 5 3 4 0\n",
        Judgement::NotShown(2),
    ),
];

/// The same of logs that workers cut: lines of each kind stand where one part ends and the next begins.
const PARTS: &[(&str, &str, Judgement)] = &[
    (
        FOUR,
        "5 2 0 1 2 0\n6 2 0 1 2 0\n7 2 0 5 0\n8 0 7 3 4 0",
        Judgement::Verified,
    ),
    (
        FOUR,
        "5 2 0 1 2 0\r\n\r\n6 2 0 1 2 0\r\n\r\n7 0 5 3 4 0\r\n",
        Judgement::Verified,
    ),
    (
        FOUR,
        "\n\n\n\n\n\n\n\n\n5 2 0 1 2 0\n\n\n\n\n\n\n\n\n6 0 5 3 4 0\n\n\n\n\n\n\n\n\n",
        Judgement::Verified,
    ),
    (
        FOUR,
        "c 5 2 0\n5 2 0 1 2 0\nc\nc 6 0 9 9 0 9 9 9 9 9 9 9 9 9 9\n6 0 5 3 4 0\nc 0",
        Judgement::Verified,
    ),
    (
        FOUR,
        "5 2 0 1 2 0\nc\nc\nc\nc\nc\nc\n6 0 5 3 99 0\n",
        Judgement::NotShown(8),
    ),
    (
        FOUR,
        "5 2 0 1 2 0\n\n\n5 d 1 2 0\n\n\n6 0 5 3 4 -1 0\n",
        Judgement::Rat(7),
    ),
    (
        FOUR,
        "9 2 0 1 2 0\n20 2 0 9 0\n300 d 20 0\n4000 0 20 3 4 0\n",
        Judgement::Verified,
    ),
    (
        FOUR,
        "5 2 0 6 0\n6 2 0 1 2 0\n7 0 6 3 4 0\n",
        Judgement::NotShown(1),
    ),
    (
        FOUR,
        "5 2 0 1 2 0\n6 0 5 3 4 0\n7 2 0 1 2 0\n8 2 0 1 2 0\n9 d x 0\n",
        Judgement::BadLog(5),
    ),
    (
        FOUR,
        "5 2 0 1 2 0\nx\n6 2 0 1 2 0\n7 0 6 3 4 0\ny\n",
        Judgement::BadLog(2),
    ),
    (
        FOUR,
        "7 2 0 1 2 0\n6 2 0 1 2 0\n8 0 6 3 4 0\ny\n",
        Judgement::BadLog(2),
    ),
    (
        FOUR,
        "5 2 0 1 2 0\n6 2 0 1 2 0\ny\n6 0 5 3 4 0\n",
        Judgement::BadLog(3),
    ),
    (
        FOUR,
        "4294967295 2 0 1 2 0\n4294967294 0 5 3 4 0\n",
        Judgement::BadLog(2),
    ),
    (
        FOUR,
        "4294967294 2 0 1 2 0\n4294967295 0 4294967294 3 4 0\n",
        Judgement::Verified,
    ),
    (
        FOUR,
        "5 2 0 1 2 0\n6 0 4294967301 5 3 4 0\n",
        Judgement::NotShown(2),
    ),
    (FOUR, "5 2 0 1 2 0", Judgement::NoRefutation),
    (FOUR, "\n", Judgement::NoRefutation),
    (FOUR, "\n\n\n\n\n\n\n\n\n\n\n\nx", Judgement::BadLog(13)),
];

/// The judgement on texts of fewer than 4,294,967,295 bytes, and else none.
pub fn judged<R: Threads + Sync>(
    rt: &R,
    alloc: Global,
    cnf: &[u8],
    log: &[u8],
    workers: u32,
) -> Result<Option<Judgement>, NoMemory>
    requires one { 1 ≤ workers }
    requires eight { workers ≤ 8 }
{
    if cnf.len() >= 4_294_967_295 || log.len() >= 4_294_967_295 {
        return Ok(None);
    }
    Ok(Some(judge(rt, alloc, cnf, log, workers)?))
}

/// Compares the judgement by one to eight workers with what is wanted.
fn try_texts<R: Abort + Threads + Sync>(
    rt: &R,
    alloc: Global,
    cnf: &str,
    log: &str,
    wanted: Judgement,
) -> Result<(), NoMemory> {
    for workers in 1..9 {
        assert!(rt; 1 <= workers && workers <= 8);
        let given = judged(rt, alloc, cnf.as_bytes(), log.as_bytes(), workers)?;
        assert!(rt; given == Some(wanted), "{workers} {cnf}{log}");
    }
    Ok(())
}

fn try_rows<R: Abort + Threads + Sync>(
    rt: &R,
    alloc: Global,
    rows: &[(&str, &str, Judgement)],
) -> Result<(), NoMemory> {
    for (cnf, log, wanted) in rows.iter().copied() {
        try_texts(rt, alloc, cnf, log, wanted)?;
    }
    Ok(())
}

/// A log of 39,999 entries, each the clause of the formula again. Those of these two numbers have no hint.
fn log_with(rt: &impl Abort, alloc: Global, wrong: (u32, u32)) -> Vec<u8> {
    let mut text = Vec::new(alloc);
    for number in 2..40_001 {
        let hint = if number == wrong.0 || number == wrong.1 {
            ""
        } else {
            "1 "
        };
        let line = format!(in alloc; "{number} 1 0 {hint}0\n").expect(rt, "no memory");
        assert!(rt; text.extend_from_slice(line.as_bytes()).is_ok());
    }
    text
}

fn try_log<R: Abort + Threads + Sync>(
    rt: &R,
    alloc: Global,
    wrong: (u32, u32),
    wanted: Judgement,
) -> Result<(), NoMemory> {
    let log = log_with(rt, alloc, wrong);
    for workers in 1..9 {
        assert!(rt; 1 <= workers && workers <= 8);
        let given = judged(rt, alloc, b"p cnf 1 1\n1 0\n", &log, workers)?;
        assert!(rt; given == Some(wanted), "{workers} {given:?}");
    }
    Ok(())
}

/// The first of two entries that are wrong is told by any number of workers, whichever piece it is in.
#[test]
fn the_first_wrong_entry(rt: HostRuntime) -> Result<(), Fail> {
    let rows = [
        ((0, 0), Judgement::NoRefutation),
        ((20_001, 30_001), Judgement::NotShown(20_000)),
        ((2, 40_000), Judgement::NotShown(1)),
        ((0, 40_000), Judgement::NotShown(39_999)),
    ];
    for (wrong, wanted) in rows {
        try_log(&rt, rt.alloc(), wrong, wanted)?;
    }
    Ok(())
}

/// A log of sixteen lines that are equally long, each the clause of the formula again, with another line in the place of one.
fn lines_with(rt: &impl Abort, alloc: Global, place: u32, other: &str) -> String {
    let mut text = String::new(alloc);
    for number in 10..26 {
        if number == place {
            assert!(rt; text.push_str(other).is_ok());
        } else {
            let line = format!(in alloc; "{number} 1 0 1 0\n").expect(rt, "no memory");
            assert!(rt; text.push_str(line.as_str()).is_ok());
        }
    }
    text
}

/// Each line in turn has the number of the one before it, or a lower one, has no form, has no hint, or is a comment: for some
/// number of workers it is the first of a part.
#[test]
fn lines_at_each_seam(rt: HostRuntime) -> Result<(), Fail> {
    let cnf = "p cnf 1 1\n1 0\n";
    for place in 11..26 {
        let line = place - 9;
        let before = place - 1;
        let none = format!(in rt.alloc(); "{place} 1 0 00\n")?;
        let unshown = format!(in rt.alloc(); "{place} 1 0   0\n")?;
        let same = format!(in rt.alloc(); "{before} 1 0 1 0\n")?;
        let rows = [
            (same.as_str(), Judgement::BadLog(line)),
            ("9  1 0 1 0\n", Judgement::BadLog(line)),
            (none.as_str(), Judgement::BadLog(line)),
            (unshown.as_str(), Judgement::NotShown(line)),
            ("c  1 0 1 0\n", Judgement::NoRefutation),
            ("\n", Judgement::NoRefutation),
        ];
        for (other, wanted) in rows {
            let log = lines_with(&rt, rt.alloc(), place, other);
            try_texts(&rt, rt.alloc(), cnf, log.as_str(), wanted)?;
        }
    }
    Ok(())
}

#[test]
fn rows_are_judged(rt: HostRuntime) -> Result<(), Fail> {
    try_rows(&rt, rt.alloc(), ROWS)?;
    try_rows(&rt, rt.alloc(), PARTS)?;
    Ok(())
}
