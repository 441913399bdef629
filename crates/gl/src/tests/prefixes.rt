//! Proper prefixes of a book: each is processed up to the form that it cuts.

use super::rows::{NONE_FAILS, compare, outcome};
use std::alloc::{AllocError, Global};
use std::process::Abort;
use std::test::Fail;
use std::thread::Threads;

const BOOK: &str = "(in-package \"ACL2\")\n\
(include-book \"centaur/gl/gl\" :dir :system)\n\
(defun fast-logcount-32 (v)\n  \
(let* ((v (- v (logand (ash v -1) #x55555555)))\n         \
(v (+ (logand v #x33333333) (logand (ash v -2) #x33333333))))\n    \
(ash (logand (* (logand (+ v (ash v -4)) #xF0F0F0F) #x1010101) #xffffffff) -24)))\n\
(def-gl-thm fast-logcount-32-correct\n  \
:hyp (unsigned-byte-p 32 x)\n  \
:concl (equal (fast-logcount-32 x) (logcount x))\n  \
:g-bindings `((x ,(g-int 0 1 33))))\n";

const DONE: &str = "DONE proved=0 vacuous=0 refuted=0 undecided=0\n";

/// What is known of a prefix of the book.
#[derive(Clone, Copy)]
struct Seen {
    /// The place behind it, from 1.
    line: u32,
    column: u32,
    /// How many lists are open.
    open: u32,
    /// How many forms have ended.
    forms: u32,
}

/// What is known of a prefix with one byte more.
fn with(seen: Seen, byte: u8) -> Seen {
    let mut next = seen;
    if byte == b'\n' {
        next.line = seen.line.wrapping_add(1);
        next.column = 1;
    } else {
        next.column = seen.column.wrapping_add(1);
    }
    if byte == b'(' {
        next.open = seen.open.wrapping_add(1);
    }
    if byte == b')' {
        next.open = seen.open.wrapping_sub(1);
        if next.open == 0 {
            next.forms = seen.forms.wrapping_add(1);
        }
    }
    next
}

/// The code of a prefix that ends inside a form, and how far in front of its end the place is: a cut `#x` has no digit, a
/// cut keyword no name, and anything else ends inside a list, a string or a token.
fn code(prefix: &[u8]) -> (&'static str, u32) {
    if prefix.ends_with(b"#x") {
        ("S7", 2)
    } else if prefix.ends_with(b":") {
        ("S4", 1)
    } else {
        ("S1", 0)
    }
}

/// Puts what a prefix that is not the whole book writes: the line of the definition where that has ended, and a refusal
/// where the prefix ends inside a form.
fn put_lines(
    alloc: Global,
    want: &mut String,
    prefix: &[u8],
    seen: Seen,
) -> Result<(), AllocError> {
    if seen.forms >= 3 {
        want.push_str("DEFUN FAST-LOGCOUNT-32\n")?;
    }
    if seen.open > 0 {
        let (code, before) = code(prefix);
        let line = seen.line;
        let column = seen.column.saturating_sub(before);
        let refused = format!(in alloc; "REFUSED {line} {column} {code}\n")?;
        want.push_str(refused.as_str())?;
    }
    want.push_str(DONE)
}

/// Compares what a prefix writes, and the code of its status.
fn try_prefix<R: AllocGlobal + Threads + Sync + Abort>(
    rt: &R,
    prefix: &[u8],
    seen: Seen,
) -> Result<(), Fail> {
    let mut want = String::new(rt.alloc());
    put_lines(rt.alloc(), &mut want, prefix, seen)?;
    let given = outcome(rt, "b", prefix.to_vec(rt.alloc())?, 200, NONE_FAILS)?;
    let code = if seen.open > 0 { 2 } else { 0 };
    let want = (want.as_bytes(), code, 0);
    compare(rt, &given, ("b", "a prefix", NONE_FAILS), want);
    Ok(())
}

fn try_prefixes<R: AllocGlobal + Threads + Sync + Abort>(rt: &R, bytes: &[u8]) -> Result<(), Fail> {
    let mut seen = Seen {
        line: 1,
        column: 1,
        open: 0,
        forms: 0,
    };
    for n in 0..bytes.len() {
        if seen.forms >= 4 {
            break;
        }
        try_prefix(rt, &bytes[..n], seen)?;
        seen = with(seen, bytes[n]);
    }
    Ok(())
}

#[test]
fn each_proper_prefix(rt: HostRuntime) -> Result<(), Fail> {
    try_prefixes(&rt, BOOK.as_bytes())
}
