use super::end_of;
use gl_base::failed::Failed;
use gl_base::memory_shelf::MemoryShelf;
use gl_base::shelf::Shelf;
use gl_logic::NoMemory;
use sexp_reader::{End, MOST_BYTES, ReadCode, ReadEnd, read_book};
use std::alloc::Global;
use std::process::Abort;
use std::test::Fail;

/// A book as a user writes it.
const BOOK: &str = r#"(in-package "ACL2")
(include-book "centaur/gl/gl" :dir :system)
(defun fast-logcount-32 (v)
  (let* ((v (- v (logand (ash v -1) #x55555555)))
         (v (+ (logand v #x33333333) (logand (ash v -2) #x33333333))))
    (ash (logand (* (logand (+ v (ash v -4)) #xF0F0F0F) #x1010101) #xffffffff) -24)))
(def-gl-thm fast-logcount-32-correct
  :hyp (unsigned-byte-p 32 x)
  :concl (equal (fast-logcount-32 x) (logcount x))
  :g-bindings `((x ,(g-int 0 1 33))))
"#;

/// The end of a front of the book that stands inside so many parentheses: what it breaks off.
fn wanted(front: &[u8], depth: u32) -> Option<ReadCode> {
    if depth == 0 {
        return None;
    }
    match front {
        [.., b'#', b'x'] => Some(ReadCode::BadHash),
        [.., b':'] => Some(ReadCode::BadByte),
        _ => Some(ReadCode::EndInside),
    }
}

/// The cause of the fault of a text, where it has one.
fn cause(alloc: Global, text: &[u8]) -> Result<Option<ReadCode>, NoMemory> {
    match end_of(alloc, text)? {
        Some((End::Bad(_, _, code), _)) => Ok(Some(code)),
        _ => Ok(None),
    }
}

fn try_fronts(rt: &impl Abort, alloc: Global, book: &[u8]) -> Result<(), NoMemory> {
    let mut depth: u32 = 0;
    for i in 0..book.len() {
        let code = cause(alloc, &book[..i])?;
        assert_eq!(rt; code, wanted(&book[..i], depth), "{i}");
        match book[i] {
            b'(' => depth = depth.saturating_add(1),
            b')' => depth = depth.saturating_sub(1),
            _ => {}
        }
    }
    Ok(())
}

#[test]
fn each_front_of_a_book(rt: HostRuntime) -> Result<(), Fail> {
    let book = BOOK.as_bytes();
    try_fronts(&rt, rt.alloc(), book)?;
    assert_eq!(rt; end_of(rt.alloc(), book)?, Some((End::Clean, 4)));
    Ok(())
}

/// A book of so many equal bytes.
fn shelf(alloc: Global, byte: u8, count: usize, fails: Vec<u64>) -> Result<MemoryShelf, Fail> {
    let bytes = vec![in alloc; byte; count]?;
    let name = String::from_str(alloc, "book")?;
    Ok(MemoryShelf::new(alloc, vec![in alloc; (name, bytes)]?, fails)?)
}

/// How many bytes are read of a book.
fn length_read<S: Shelf>(alloc: Global, shelf: &mut S, name: &str) -> Result<usize, ReadEnd>
    requires { S.may_open name.now }
{
    match read_book(alloc, shelf, name) {
        Ok(bytes) => Ok(bytes.len()),
        Err(end) => Err(end),
    }
}

/// A byte so many times over, and how many bytes are read.
const LENGTHS: [(u8, usize, Result<usize, ReadEnd>); 6] = [
    (b' ', 0, Ok(0)),
    (b' ', 4096, Ok(4096)),
    (b'x', MOST_BYTES, Ok(MOST_BYTES)),
    (b'x', 4_194_305, Err(ReadEnd::TooLong(1, 4_194_305))),
    (b'\n', 4_194_305, Err(ReadEnd::TooLong(4_194_305, 1))),
    (b'\n', 5_000_000, Err(ReadEnd::TooLong(4_194_305, 1))),
];

#[test]
fn books_by_length(rt: HostRuntime) -> Result<(), Fail> {
    try_lengths(&rt, rt.alloc(), &LENGTHS)
}

fn try_lengths(
    rt: &impl Abort,
    alloc: Global,
    rows: &[(u8, usize, Result<usize, ReadEnd>)],
) -> Result<(), Fail> {
    for (byte, count, wanted) in rows.iter().copied() {
        let mut shelf = shelf(alloc, byte, count, Vec::new(alloc))?;
        let read = length_read(alloc, &mut shelf, "book");
        assert!(rt; read == wanted, "{byte} {count}");
    }
    Ok(())
}

/// Reads two books from a shelf, of which it has the first alone.
fn try_shelf(
    rt: &impl Abort,
    alloc: Global,
    shelf: &mut MemoryShelf,
    wanted: Result<usize, ReadEnd>,
) {
    assert!(rt; length_read(alloc, shelf, "book") == wanted);
    assert!(rt; length_read(alloc, shelf, "other") == Err(ReadEnd::Failed));
}

/// A call that fails, and how many bytes are read. The calls are the open, two reads of bytes and the read of the end.
const FAULTS: [(u64, Result<usize, ReadEnd>); 5] = [
    (1, Err(ReadEnd::Failed)),
    (2, Err(ReadEnd::Failed)),
    (3, Err(ReadEnd::Failed)),
    (4, Err(ReadEnd::Failed)),
    (5, Ok(5000)),
];

#[test]
fn a_shelf_that_fails(rt: HostRuntime) -> Result<(), Fail> {
    try_faults(&rt, rt.alloc(), &FAULTS)
}

fn try_faults(
    rt: &impl Abort,
    alloc: Global,
    rows: &[(u64, Result<usize, ReadEnd>)],
) -> Result<(), Fail> {
    for (call, wanted) in rows.iter().copied() {
        let mut shelf = shelf(alloc, b'x', 5000, vec![in alloc; call]?)?;
        try_shelf(rt, alloc, &mut shelf, wanted);
    }
    Ok(())
}

/// A shelf that gives one byte at a time.
#[derive(Drop)]
struct ByteByByte<S: Shelf + Drop> {
    inner: S,
}

impl<S: Shelf + Drop> Shelf for ByteByByte<S> {
    ghost may_open = { S.may_open };

    ghost holds = { λ s name. S.holds s.inner name };

    ghost rest = { λ s. S.rest s.inner };

    ghost is_open = { λ s. S.is_open s.inner };

    ghost faults = { λ s. S.faults s.inner };

    fn open(&mut self, name: &str) -> Result<(), Failed> {
        self.inner.open(name)
    }

    fn read(&mut self, buf: &mut [u8]) -> Result<usize, Failed> {
        self.inner.read(&mut buf[..1])
    }
}

#[test]
fn a_shelf_that_gives_one_byte_at_a_time(rt: HostRuntime) -> Result<(), Fail> {
    let mut shelf = ByteByByte {
        inner: shelf(rt.alloc(), b'x', 5000, Vec::new(rt.alloc()))?,
    };
    assert!(rt; length_read(rt.alloc(), &mut shelf, "book") == Ok(5000));
    Ok(())
}
