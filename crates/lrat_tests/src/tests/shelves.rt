//! Texts that are read from a shelf.

use gl_base::memory_shelf::MemoryShelf;
use gl_base::shelf::Shelf;
use lrat_tool::{MOST_TEXT, TextEnd, read_text};
use std::alloc::Global;
use std::process::Abort;
use std::test::Fail;

/// A text of so many equal bytes, under the name `log`.
fn shelf(alloc: Global, byte: u8, count: usize, fails: Vec<u64>) -> Result<MemoryShelf, Fail> {
    let bytes = vec![in alloc; byte; count]?;
    let name = String::from_str(alloc, "log")?;
    Ok(MemoryShelf::new(alloc, vec![in alloc; (name, bytes)]?, fails)?)
}

/// How many bytes are read of a text.
fn length_read<S: Shelf>(alloc: Global, shelf: &mut S, name: &str) -> Result<usize, TextEnd>
    requires { S.may_open name.now }
{
    match read_text(alloc, shelf, name) {
        Ok(bytes) => Ok(bytes.len()),
        Err(end) => Err(end),
    }
}

/// A byte so many times over, and how many bytes are read.
const LENGTHS: [(u8, usize, Result<usize, TextEnd>); 6] = [
    (b'c', 0, Ok(0)),
    (b'c', 65_536, Ok(65_536)),
    (b'c', 65_537, Ok(65_537)),
    (b'c', MOST_TEXT, Ok(MOST_TEXT)),
    (b'c', 67_108_865, Err(TextEnd::TooLong(1))),
    (b'\n', 67_108_865, Err(TextEnd::TooLong(67_108_865))),
];

#[test]
fn texts_by_length(rt: HostRuntime) -> Result<(), Fail> {
    try_lengths(&rt, rt.alloc(), &LENGTHS)
}

fn try_lengths(
    rt: &impl Abort,
    alloc: Global,
    rows: &[(u8, usize, Result<usize, TextEnd>)],
) -> Result<(), Fail> {
    for (byte, count, wanted) in rows.iter().copied() {
        let mut shelf = shelf(alloc, byte, count, Vec::new(alloc))?;
        let read = length_read(alloc, &mut shelf, "log");
        assert!(rt; read == wanted, "{byte} {count}");
    }
    Ok(())
}

/// A call that fails, and how many bytes are read. The calls are the open, two reads of bytes and the read of the end.
const FAULTS: [(u64, Result<usize, TextEnd>); 5] = [
    (1, Err(TextEnd::Failed)),
    (2, Err(TextEnd::Failed)),
    (3, Err(TextEnd::Failed)),
    (4, Err(TextEnd::Failed)),
    (5, Ok(100_000)),
];

#[test]
fn a_shelf_that_fails(rt: HostRuntime) -> Result<(), Fail> {
    try_faults(&rt, rt.alloc(), &FAULTS)
}

/// Reads a text of a shelf, and one that it has not.
fn try_faults(
    rt: &impl Abort,
    alloc: Global,
    rows: &[(u64, Result<usize, TextEnd>)],
) -> Result<(), Fail> {
    for (call, wanted) in rows.iter().copied() {
        let mut shelf = shelf(alloc, b'c', 100_000, vec![in alloc; call]?)?;
        assert!(rt; length_read(alloc, &mut shelf, "log") == wanted);
        assert!(rt; length_read(alloc, &mut shelf, "cnf") == Err(TextEnd::Failed));
    }
    Ok(())
}
