//! Texts that are run with few nodes: by each line, or by the last one alone.

ghost use Rattle.std.specs.Prelude.{◌≤◌};

use super::rows::told_to;
use gl_base::limits::Limits;
use gl_base::memory_sink::MemorySink;
use gl_book::{Transcript, run_text};
use gl_decide::{StallCause, Stalls};
use std::process::Abort;
use std::test::Fail;
use std::thread::Threads;

/// A value, and a theorem of five indices.
const SMALL: &str =
    "(value-triple 1) (def-gl-thm small :hyp (unsigned-byte-p 4 x) :concl (< x 16) :g-bindings (auto-bindings (:nat x 4)))";

/// A product of 12 indices, which takes more than 100 nodes.
const TIMES: &str =
    "(def-gl-thm times :hyp (and (unsigned-byte-p 5 x) (unsigned-byte-p 5 y)) :concl (equal (* x y) (* y x)) :g-bindings (auto-bindings (:mix (:nat x 5) (:nat y 5))))";

fn limits(enum_bits: u8) -> Limits
    requires { enum_bits ≤ 16 }
{
    let usual = Limits::usual();
    Limits {
        steps: usual.steps,
        cells: usual.cells,
        nodes: 100,
        clauses: usual.clauses,
        enum_bits,
        workers: usual.workers,
    }
}

/// A text, how many indices are scanned, whether the last line alone is written; what is written, the code of the status,
/// and how many stalls it adds.
type Row = (&'static str, u8, bool, &'static str, u8, u64);

const PROVED: &str = "DONE proved=1 vacuous=0 refuted=0 undecided=0\n";

const UNDECIDED: &str = "DONE proved=0 vacuous=0 refuted=0 undecided=1\n";

const PROVED_WHOLE: &str = "PROVED TIMES\nDONE proved=1 vacuous=0 refuted=0 undecided=0\n";

const UNDECIDED_WHOLE: &str =
    "UNDECIDED TIMES nodes\nDONE proved=0 vacuous=0 refuted=0 undecided=1\n";

const SMALL_WHOLE: &str = "VALUE 1\nPROVED SMALL\nDONE proved=1 vacuous=0 refuted=0 undecided=0\n";

const ROWS: [Row; 6] = [
    (SMALL, 5, false, SMALL_WHOLE, 0, 0),
    (SMALL, 4, true, PROVED, 0, 0),
    (TIMES, 12, false, PROVED_WHOLE, 0, 0),
    (TIMES, 12, true, PROVED, 0, 0),
    (TIMES, 11, false, UNDECIDED_WHOLE, 3, 1),
    (TIMES, 11, true, UNDECIDED, 3, 1),
];

/// Compares what a run over a text wrote, and the code of its status. Each stall that it adds is one of 100 nodes.
fn try_row<R: AllocGlobal + Threads + Sync + Abort>(
    rt: &R,
    row: &Row,
    out: &mut Transcript<MemorySink>,
) {
    let (text, enum_bits, last_only, want, want_code, want_stalls) = *row;
    assert!(rt; enum_bits <= 16);
    let limits = limits(enum_bits);
    let code = run_text(rt, rt.alloc(), text.as_bytes(), &limits, last_only, out).code();
    assert_eq!(rt;
        out.sink.bytes(),
        want.as_bytes(),
        "{text}, last only: {last_only}"
    );
    assert_eq!(rt; code, want_code, "{text}, last only: {last_only}");
    assert_eq!(rt;
        out.stalls.len(),
        want_stalls,
        "{text}, last only: {last_only}"
    );
    check_stalls(rt, &out.stalls);
}

/// Each is of 100 nodes.
fn check_stalls(rt: &impl Abort, stalls: &Stalls) {
    for i in 0..stalls.len() {
        assert_eq!(rt; stalls.at(i).cause(), StallCause::Nodes(100));
    }
}

fn try_rows<R: AllocGlobal + Threads + Sync + Abort>(rt: &R, rows: &[Row]) -> Result<(), Fail> {
    for row in rows {
        let sink = MemorySink::new(rt.alloc(), 200, Vec::new(rt.alloc()))?;
        let mut out = told_to(rt.alloc(), sink);
        try_row(rt, row, &mut out);
    }
    Ok(())
}

/// A theorem of as many indices as are scanned has a verdict where its nodes do not suffice; one of more is undecided.
#[test]
fn whole_or_by_the_last_line(rt: HostRuntime) -> Result<(), Fail> {
    try_rows(&rt, &ROWS)
}
