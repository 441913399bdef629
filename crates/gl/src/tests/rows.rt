//! What runs over memory write, and the codes of their statuses: the walks over tables that other tests share, and words.

use crate::run::run;
use gl_base::memory_shelf::MemoryShelf;
use gl_base::memory_sink::MemorySink;
use gl_book::{Transcript, generate};
use gl_decide::Stalls;
use std::alloc::{AllocError, Global};
use std::process::Abort;
use std::test::Fail;
use std::thread::Threads;

/// The usage line.
pub const USAGE: &str =
    "USAGE gl [--workers N] [--steps N] [--cells N] [--nodes N] [--clauses N] [--enum-bits N] [--proof cnf|log] (BOOK | --generate N) | gl lrat [--workers N] CNF LOG\n";

/// What a run over memory gave.
#[derive(Drop)]
pub struct Given {
    /// What it wrote, with its stalls.
    out: Transcript<MemorySink>,
    /// The code of its status.
    pub code: u8,
    /// How many stalls it added.
    pub stalls: u64,
}

impl Given {
    /// What it wrote.
    pub fn bytes(&self) -> &[u8] {
        self.out.sink.bytes()
    }
}

/// The calls of the shelf and of the sink that fail, from 1; 0 where none does.
pub type Fails = (u64, u64);

/// No call fails.
pub const NONE_FAILS: Fails = (0, 0);

/// What a run over memory gives. The shelf holds one text, under the name `b`; the sink has room for so many bytes.
pub fn outcome<R: AllocGlobal + Threads + Sync>(
    rt: &R,
    words: &str,
    book: Vec<u8>,
    room: usize,
    fails: Fails,
) -> Result<Given, Fail> {
    outcome_over(rt, words, texts_of(rt.alloc(), book)?, room, fails)
}

/// What a run over memory gives, where the shelf holds these texts.
pub fn outcome_over<R: AllocGlobal + Threads + Sync>(
    rt: &R,
    words: &str,
    texts: Vec<(String, Vec<u8>)>,
    room: usize,
    fails: Fails,
) -> Result<Given, Fail> {
    let alloc = rt.alloc();
    let mut shelf = MemoryShelf::new(alloc, texts, calls_of(alloc, fails.0)?)?;
    let words = words_in(alloc, words)?;
    let mut given = Given {
        out: told_to(
            alloc,
            MemorySink::new(alloc, room, calls_of(alloc, fails.1)?)?,
        ),
        code: 0,
        stalls: 0,
    };
    run_into(rt, alloc, words.as_slice(), &mut shelf, &mut given);
    Ok(given)
}

/// A transcript to a sink, with no stall.
pub fn told_to<K>(alloc: Global, sink: K) -> Transcript<K> {
    Transcript {
        sink,
        stalls: Stalls::new(alloc),
    }
}

/// Runs the words over the shelf.
fn run_into<R: Threads + Sync>(
    rt: &R,
    alloc: Global,
    words: &[String],
    shelf: &mut MemoryShelf,
    given: &mut Given,
) {
    let status = run(rt, alloc, words, shelf, &mut given.out);
    given.code = status.code();
    given.stalls = given.out.stalls.len();
}

/// How many lines of a transcript tell of nodes or clauses.
fn stalls_told(lines: &str) -> u64 {
    let mut count: u64 = 0;
    for word in lines.split_whitespace() {
        if word == "nodes" || word == "clauses" {
            count = count.saturating_add(1);
        }
    }
    count
}

/// A run: its words, the book `b`, and the calls that fail.
pub type Case<'a> = (&'a str, &'a str, Fails);

/// What a run writes, the code of its status, and how many stalls it adds.
pub type Wanted<'a> = (&'a [u8], u8, u64);

/// Compares what a run over memory gives. In the book `{9 part}` stands for nine times the part.
pub fn gives<R: AllocGlobal + Threads + Sync + Abort>(
    rt: &R,
    case: Case<'_>,
    want: Wanted<'_>,
) -> Result<(), Fail> {
    let (words, book, fails) = case;
    let given = outcome(rt, words, text_of(rt.alloc(), book)?, 2_100_000, fails)?;
    compare(rt, &given, case, want);
    Ok(())
}

/// Compares what a run gave. The run is told where it differs.
pub fn compare(rt: &impl Abort, given: &Given, case: Case<'_>, want: Wanted<'_>) {
    let (words, book, (shelf_call, sink_call)) = case;
    let (bytes, code, stalls) = (given.bytes(), given.code, given.stalls);
    assert!(rt;
        bytes == want.0 && code == want.1 && stalls == want.2,
        "{words}, {shelf_call}, {sink_call}: {book}: {bytes:?}, status {code}, {stalls} stalls"
    );
}

/// Compares what each run of a table writes, the code of its status, and that it adds a stall for each line that tells of
/// nodes or clauses.
///
/// A row is `== WORDS`, from the next line on the book `b`, behind it `=> STATUS`, and from the next line on what is written.
/// In both texts `{9 part}` stands for nine times the part.
pub fn all_give<R: AllocGlobal + Threads + Sync + Abort>(rt: &R, table: &str) -> Result<(), Fail> {
    for text in table.split("==").skip(1) {
        let (words, book, want, code) = row_of(text).expect(rt, text);
        let lines = text_of(rt.alloc(), want)?;
        let want = (lines.as_slice(), code, stalls_told(want));
        gives(rt, (words, book, NONE_FAILS), want)?;
    }
    Ok(())
}

/// The first lines of a text, so many.
pub fn first_lines(alloc: Global, text: &str, count: usize) -> Result<Vec<u8>, AllocError> {
    let mut lines = Vec::new(alloc);
    for line in text.lines().take(count) {
        lines.extend_from_slice(line.as_bytes())?;
        lines.push(b'\n')?;
    }
    Ok(lines)
}

/// The words of a row, its book, what is written, and the code of the status.
fn row_of(text: &str) -> Option<(&str, &str, &str, u8)> {
    let (words, rest) = text.split_once('\n')?;
    let (book, rest) = rest.split_once("=> ")?;
    let (code, want) = rest.split_once('\n')?;
    Some((words, book, want, code.parse().ok()?))
}

/// The bytes of a text in which `{9 part}` stands for nine times the part.
fn text_of(alloc: Global, source: &str) -> Result<Vec<u8>, AllocError> {
    let mut text = Vec::new(alloc);
    for (place, piece) in source.split('{').enumerate() {
        if place == 0 {
            text.extend_from_slice(piece.as_bytes())?;
        } else {
            put_parts(&mut text, piece)?;
        }
    }
    Ok(text)
}

/// Puts what `9 part}` and the rest behind it stand for.
fn put_parts(text: &mut Vec<u8>, piece: &str) -> Result<(), AllocError> {
    let (parts, rest) = piece.split_once('}').unwrap_or((piece, ""));
    let (count, part) = parts.split_once(' ').unwrap_or((parts, ""));
    for _ in 0..count.parse().unwrap_or(0usize) {
        text.extend_from_slice(part.as_bytes())?;
    }
    text.extend_from_slice(rest.as_bytes())
}

/// A run over one book: its words, the calls of the shelf and of the sink that fail, what is written, and the code of the
/// status.
pub type FaultRow = (&'static str, u64, u64, &'static str, u8);

/// Compares what each run over a book wrote, and the code of its status.
pub fn each_fault_gives<R: AllocGlobal + Threads + Sync + Abort>(
    rt: &R,
    book: &str,
    rows: &[FaultRow],
) -> Result<(), Fail> {
    for (words, shelf_call, sink_call, want, code) in rows.iter().copied() {
        let want = (want.as_bytes(), code, stalls_told(want));
        gives(rt, (words, book, (shelf_call, sink_call)), want)?;
    }
    Ok(())
}

/// A shelf with one text, under the name `b`. This call of it fails; 0 where none does.
pub fn shelf_of(alloc: Global, bytes: Vec<u8>, fails: u64) -> Result<MemoryShelf, Fail> {
    let texts = texts_of(alloc, bytes)?;
    Ok(MemoryShelf::new(alloc, texts, calls_of(alloc, fails)?)?)
}

/// One text, under the name `b`.
pub fn texts_of(alloc: Global, bytes: Vec<u8>) -> Result<Vec<(String, Vec<u8>)>, AllocError> {
    let mut texts = Vec::new(alloc);
    texts.push((String::from_str(alloc, "b")?, bytes))?;
    Ok(texts)
}

/// The call of this number alone; none where it is 0.
fn calls_of(alloc: Global, call: u64) -> Result<Vec<u64>, AllocError> {
    let mut calls = Vec::new(alloc);
    if call > 0 {
        calls.push(call)?;
    }
    Ok(calls)
}

/// The words of a line, which blanks part.
pub fn words_in(alloc: Global, line: &str) -> Result<Vec<String>, AllocError> {
    let mut words = Vec::new(alloc);
    for word in line.split_whitespace() {
        words.push(String::from_str(alloc, word)?)?;
    }
    Ok(words)
}

/// Words that are no command, and then words of each option.
const COMMANDS: &str = r#"
==
=> 64
USAGE gl [--workers N] [--steps N] [--cells N] [--nodes N] [--clauses N] [--enum-bits N] [--proof cnf|log] (BOOK | --generate N) | gl lrat [--workers N] CNF LOG
== a b
=> 64
USAGE gl [--workers N] [--steps N] [--cells N] [--nodes N] [--clauses N] [--enum-bits N] [--proof cnf|log] (BOOK | --generate N) | gl lrat [--workers N] CNF LOG
== -x
=> 64
USAGE gl [--workers N] [--steps N] [--cells N] [--nodes N] [--clauses N] [--enum-bits N] [--proof cnf|log] (BOOK | --generate N) | gl lrat [--workers N] CNF LOG
== --workers 9 b
=> 64
USAGE gl [--workers N] [--steps N] [--cells N] [--nodes N] [--clauses N] [--enum-bits N] [--proof cnf|log] (BOOK | --generate N) | gl lrat [--workers N] CNF LOG
== --workers 0 b
=> 64
USAGE gl [--workers N] [--steps N] [--cells N] [--nodes N] [--clauses N] [--enum-bits N] [--proof cnf|log] (BOOK | --generate N) | gl lrat [--workers N] CNF LOG
== --steps x b
=> 64
USAGE gl [--workers N] [--steps N] [--cells N] [--nodes N] [--clauses N] [--enum-bits N] [--proof cnf|log] (BOOK | --generate N) | gl lrat [--workers N] CNF LOG
== --steps 100000000 b
=> 64
USAGE gl [--workers N] [--steps N] [--cells N] [--nodes N] [--clauses N] [--enum-bits N] [--proof cnf|log] (BOOK | --generate N) | gl lrat [--workers N] CNF LOG
== --cells 999 b
=> 64
USAGE gl [--workers N] [--steps N] [--cells N] [--nodes N] [--clauses N] [--enum-bits N] [--proof cnf|log] (BOOK | --generate N) | gl lrat [--workers N] CNF LOG
== --enum-bits 17 b
=> 64
USAGE gl [--workers N] [--steps N] [--cells N] [--nodes N] [--clauses N] [--enum-bits N] [--proof cnf|log] (BOOK | --generate N) | gl lrat [--workers N] CNF LOG
== --generate 10001
=> 64
USAGE gl [--workers N] [--steps N] [--cells N] [--nodes N] [--clauses N] [--enum-bits N] [--proof cnf|log] (BOOK | --generate N) | gl lrat [--workers N] CNF LOG
== --generate
=> 64
USAGE gl [--workers N] [--steps N] [--cells N] [--nodes N] [--clauses N] [--enum-bits N] [--proof cnf|log] (BOOK | --generate N) | gl lrat [--workers N] CNF LOG
== b --generate 3
=> 64
USAGE gl [--workers N] [--steps N] [--cells N] [--nodes N] [--clauses N] [--enum-bits N] [--proof cnf|log] (BOOK | --generate N) | gl lrat [--workers N] CNF LOG
== --enum-bits 3
=> 64
USAGE gl [--workers N] [--steps N] [--cells N] [--nodes N] [--clauses N] [--enum-bits N] [--proof cnf|log] (BOOK | --generate N) | gl lrat [--workers N] CNF LOG
== --help
=> 64
USAGE gl [--workers N] [--steps N] [--cells N] [--nodes N] [--clauses N] [--enum-bits N] [--proof cnf|log] (BOOK | --generate N) | gl lrat [--workers N] CNF LOG
== --workers 8 --steps 007 --cells 4000000 b
=> 0
DONE proved=0 vacuous=0 refuted=0 undecided=0
== b --nodes=100 --clauses 1
=> 0
DONE proved=0 vacuous=0 refuted=0 undecided=0
== --generate 0
=> 0
DONE proved=0 vacuous=0 refuted=0 undecided=0
== --enum-bits 3 b
(def-gl-thm w :hyp (unsigned-byte-p 3 x) :concl (< x 8) :g-bindings (auto-bindings (:nat x 3)))=> 0
PROVED W
DONE proved=1 vacuous=0 refuted=0 undecided=0
== --enum-bits 4 b
(def-gl-thm w :hyp (unsigned-byte-p 3 x) :concl (< x 8) :g-bindings (auto-bindings (:nat x 3)))=> 0
PROVED W
DONE proved=1 vacuous=0 refuted=0 undecided=0
"#;

#[test]
fn words_of_commands(rt: HostRuntime) -> Result<(), Fail> {
    all_give(&rt, COMMANDS)
}

/// No flush follows the usage line.
const NOT_TAKEN: [FaultRow; 2] = [("", 0, 1, "", 5), ("", 0, 2, USAGE, 64)];

#[test]
fn usage_line_that_is_not_taken(rt: HostRuntime) -> Result<(), Fail> {
    each_fault_gives(&rt, "", &NOT_TAKEN)
}

const GENERATED: &str =
    "(def-gl-thm t0 :hyp (and (unsigned-byte-p 4 x) (unsigned-byte-p 4 y)) :concl (equal (+ x y 0) (+ y 0 x)) :g-bindings (auto-bindings (:mix (:nat x 4) (:nat y 4))))\n\
    (def-gl-thm t1 :hyp (and (unsigned-byte-p 5 x) (unsigned-byte-p 5 y)) :concl (< (+ x y) 62) :g-bindings (auto-bindings (:mix (:nat x 5) (:nat y 5))))\n";

#[test]
fn generated_book(rt: HostRuntime) -> Result<(), Fail> {
    let book = generate(rt.alloc(), 2)?;
    assert_eq!(rt; book.as_slice(), GENERATED.as_bytes());
    Ok(())
}
