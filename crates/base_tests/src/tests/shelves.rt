//! Shelves and sinks in memory, limits and statuses.

ghost use Rattle.std.specs.Prelude.{◌≡◌, true};

use super::{check, check_at};
use gl_base::limits::Limits;
use gl_base::memory_shelf::MemoryShelf;
use gl_base::memory_sink::MemorySink;
use gl_base::shelf::Shelf;
use gl_base::sink::{Sink, put_all};
use gl_base::status::Status;
use gl_base::sure_shelf::SureShelf;
use gl_base::sure_sink::SureSink;
use std::alloc::Global;
use std::process::Abort;

type Texts = Vec<(String, Vec<u8>)>;

fn text(rt: &impl Abort, alloc: Global, name: &str, bytes: &str) -> (String, Vec<u8>) {
    let name = String::from_str(alloc, name).expect(rt, "no memory");
    (name, bytes.as_bytes().to_vec(alloc).expect(rt, "no memory"))
}

fn texts(rt: &impl Abort, alloc: Global) -> Texts {
    let mut texts = Vec::new(alloc);
    for (name, bytes) in [("a", "first"), ("b", ""), ("a", "second")] {
        texts
            .push(text(rt, alloc, name, bytes))
            .expect(rt, "no memory");
    }
    texts
}

#[test]
fn codes(rt: HostRuntime) {
    for (status, code) in [
        (Status::Good, 0),
        (Status::Refuted, 1),
        (Status::BookRefused, 2),
        (Status::Undecided, 3),
        (Status::ReadFault, 4),
        (Status::WriteFault, 5),
        (Status::NoMemory, 6),
        (Status::Usage, 64),
    ] {
        check_at(&rt, status.code() == code, u64::from(code));
    }
}

#[test]
fn usual_limits(rt: HostRuntime) {
    let limits = Limits::usual();
    assert!(rt; limits.workers == 1 && limits.steps == 10000000 && limits.cells == 1000000);
    assert!(rt; limits.nodes == 1000000 && limits.clauses == 100000 && limits.enum_bits == 12);
}

/// Reads the open text to its end in pieces of three bytes, and tells whether that came before the first fault.
fn read_pieces<S: Shelf>(rt: &impl Abort, shelf: &mut S, bytes: &mut Vec<u8>) -> bool
    requires { S.is_open shelf.old ≡ true }
{
    let mut piece = [0u8; 3];
    for _ in 0..10 {
        match shelf.read(&mut piece) {
            Ok(0) => return true,
            Ok(count) => bytes
                .extend_from_slice(&piece[..count])
                .expect(rt, "no memory"),
            Err(_) => return false,
        }
    }
    false
}

/// Opens and reads a text, and compares what came before the first fault, and whether its end did.
fn compare<S: Shelf>(
    rt: &impl Abort,
    alloc: Global,
    shelf: &mut S,
    name: &str,
    want: &str,
    whole: bool,
)
    requires { S.may_open name.now }
{
    let mut bytes = Vec::new(alloc);
    let ended = shelf.open(name).is_ok() && read_pieces(rt, shelf, &mut bytes);
    check(
        rt,
        ended == whole && bytes.as_slice() == want.as_bytes(),
        name,
    );
}

#[test]
fn memory_shelf_reads(rt: HostRuntime) {
    let alloc = rt.alloc();
    let mut shelf = MemoryShelf::new(alloc, texts(&rt, alloc), Vec::new(alloc)).expect(
        &rt,
        "no memory",
    );
    for (name, want, whole) in [
        ("a", "first", true),
        ("b", "", true),
        ("c", "", false),
        ("a", "first", true),
    ] {
        compare(&rt, alloc, &mut shelf, name, want, whole);
    }
}

/// The list of one number.
fn alone(rt: &impl Abort, alloc: Global, number: u64) -> Vec<u64> {
    [number].to_vec(alloc).expect(rt, "no memory")
}

/// What comes of a text where this call fails.
fn compare_failing(rt: &impl Abort, alloc: Global, call: u64, want: &str, whole: bool) {
    let mut shelf = MemoryShelf::new(alloc, texts(rt, alloc), alone(rt, alloc, call)).expect(
        rt,
        "no memory",
    );
    compare(rt, alloc, &mut shelf, "a", want, whole);
}

#[test]
fn memory_shelf_fails_where_told(rt: HostRuntime) {
    // the calls are the open, two reads of bytes and the read of the end
    for (call, want, whole) in [
        (1, "", false),
        (2, "", false),
        (3, "fir", false),
        (4, "first", false),
        (5, "first", true),
    ] {
        compare_failing(&rt, rt.alloc(), call, want, whole);
    }
}

#[test]
fn sure_shelf_reads(rt: HostRuntime) {
    let alloc = rt.alloc();
    let mut shelf = SureShelf::new(alloc, texts(&rt, alloc)).expect(&rt, "no memory");
    for (name, want) in [("a", "first"), ("b", ""), ("c", "")] {
        compare(&rt, alloc, &mut shelf, name, want, true);
    }
}

#[test]
fn memory_sink_takes(rt: HostRuntime) {
    let alloc = rt.alloc();
    let mut sink = MemorySink::new(alloc, 8, Vec::new(alloc)).expect(&rt, "no memory");
    for (piece, fits) in [("three", true), ("", true), ("four", false), ("two", true)] {
        check(
            &rt,
            put_all(&mut sink, piece.as_bytes()).is_ok() == fits,
            piece,
        );
    }
    assert!(rt; sink.flush().is_ok());
    assert!(rt; sink.bytes() == b"threetwo".as_slice());
}

/// What a sink takes where this call fails.
fn put_failing(rt: &impl Abort, alloc: Global, call: u64, want: &str) {
    let mut sink = MemorySink::new(alloc, 8, alone(rt, alloc, call)).expect(rt, "no memory");
    let first = put_all(&mut sink, b"ab").is_err();
    let second = put_all(&mut sink, b"cd").is_err();
    let end = sink.flush().is_err();
    let answers = first == (call == 1) && second == (call == 2) && end == (call == 3);
    check_at(rt, answers && sink.bytes() == want.as_bytes(), call);
}

#[test]
fn memory_sink_fails_where_told(rt: HostRuntime) {
    for (call, want) in [(1, "cd"), (2, "ab"), (3, "abcd"), (4, "abcd")] {
        put_failing(&rt, rt.alloc(), call, want);
    }
}

#[test]
fn sure_sink_keeps(rt: HostRuntime) {
    let mut sink = SureSink::new(rt.alloc(), 4).expect(&rt, "no memory");
    put_surely(&mut sink, b"abc");
    put_surely(&mut sink, b"def");
    assert!(rt; sink.flush().is_ok());
    assert!(rt; sink.bytes() == b"abcd".as_slice());
}

/// The loop over a sure sink never fails.
fn put_surely(sink: &mut SureSink, piece: &[u8]) {
    match put_all(sink, piece) {
        Ok(()) => {}
        Err(_) => unreachable!(),
    }
}
