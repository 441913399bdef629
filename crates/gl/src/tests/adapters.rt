//! Files and writers of the system, and faked ones that fail.

use super::rows::{told_to, words_in};
use crate::run::run;
use command_line::{FileShelf, WriterSink, read_some};
use gl_base::failed::Failed;
use gl_base::memory_sink::MemorySink;
use gl_base::shelf::Shelf;
use gl_base::sink::Sink;
use gl_book::Transcript;
use std::alloc::AllocError;
use std::io::{ErrorKind, Read, Write};
use std::process::Abort;
use std::rt::Files;
use std::test::Fail;
use std::thread::Threads;
use std::{fs, io};

/// Opens a file of five bytes and reads it to its end.
fn read_through<R: Files + Abort>(rt: &R, shelf: &mut FileShelf<R>, name: &str) {
    let mut piece = [0u8; 3];
    assert!(rt; shelf.open("gl_adapters_no_such_file.lisp").is_err());
    assert!(rt; shelf.open(name).is_ok());
    assert!(rt; shelf.read(&mut piece) == Ok(3));
    assert!(rt; piece.starts_with(b"(a "));
    assert!(rt; shelf.read(&mut piece) == Ok(2));
    assert!(rt; piece.starts_with(b"b)"));
    assert!(rt; shelf.read(&mut piece) == Ok(0));
}

#[test]
fn real_file(rt: HostRuntime) -> Result<(), Fail> {
    let name = "gl_adapters_test.lisp";
    fs::write(&rt, name, "(a b)")?;
    read_through(&rt, &mut FileShelf::new(&rt), name);
    fs::remove_file(&rt, name)?;
    Ok(())
}

/// The code of the status of a run on a folder, and how many stalls it adds.
fn run_folder<R: AllocGlobal + Files + Threads + Sync>(
    rt: &R,
    out: &mut Transcript<MemorySink>,
) -> Result<(u8, u64), AllocError> {
    let mut shelf = FileShelf::new(rt);
    let words = words_in(rt.alloc(), ".")?;
    let status = run(rt, rt.alloc(), words.as_slice(), &mut shelf, out);
    Ok((status.code(), out.stalls.len()))
}

/// A folder opens as a file does, and its first read fails.
#[test]
fn folder(rt: HostRuntime) -> Result<(), Fail> {
    let sink = MemorySink::new(rt.alloc(), 100, Vec::new(rt.alloc()))?;
    let mut out = told_to(rt.alloc(), sink);
    assert!(rt; run_folder(&rt, &mut out)? == (4, 0));
    assert!(rt; out.sink.bytes().is_empty());
    Ok(())
}

/// A reader and writer of two bytes at a time: its first call is interrupted, its third takes nothing and its fourth
/// fails.
#[derive(Drop)]
struct Uneven {
    taken: Vec<u8>,
    calls: u64,
}

impl Write for Uneven {
    fn write(&mut self, buf: &[u8]) -> io::Result<usize> {
        self.calls = self.calls.saturating_add(1);
        match self.calls {
            1 => Err(io::Error::from(ErrorKind::Interrupted)),
            3 => Ok(0),
            4 => Err(io::Error::from(ErrorKind::Other)),
            _ => self.taken.write(&buf[..buf.len().min(2)]),
        }
    }

    fn flush(&mut self) -> io::Result<()> {
        Err(io::Error::from(ErrorKind::Other))
    }
}

impl Read for Uneven {
    fn read(&mut self, buf: &mut [u8]) -> io::Result<usize> {
        self.calls = self.calls.saturating_add(1);
        match self.calls {
            1 => Err(io::Error::from(ErrorKind::Interrupted)),
            3 => Ok(0),
            4 => Err(io::Error::from(ErrorKind::Other)),
            _ => self.taken.as_slice().read(buf),
        }
    }
}

fn write_twice(rt: &impl Abort, sink: &mut WriterSink<Uneven>) {
    assert!(rt; sink.write(b"abc") == Ok(2));
    assert!(rt; sink.write(b"c") == Err(Failed));
    assert!(rt; sink.write(b"c") == Err(Failed));
    assert!(rt; sink.write(b"c") == Ok(1));
    assert!(rt; sink.flush() == Err(Failed));
}

#[test]
fn uneven_writer(rt: HostRuntime) {
    let mut sink = WriterSink::new(Uneven {
        taken: Vec::new(rt.alloc()),
        calls: 0,
    });
    write_twice(&rt, &mut sink);
    assert_eq!(rt; sink.into_writer().taken.as_slice(), b"abc".as_slice());
}

fn read_twice(rt: &impl Abort, reader: &mut Uneven) {
    let mut piece = [0u8; 3];
    assert!(rt; read_some(reader, &mut piece) == Ok(2));
    assert!(rt; piece.starts_with(b"ab"));
    assert!(rt; read_some(reader, &mut piece) == Ok(0));
    assert!(rt; read_some(reader, &mut piece) == Err(Failed));
}

#[test]
fn uneven_reader(rt: HostRuntime) -> Result<(), Fail> {
    let mut reader = Uneven {
        taken: b"ab".to_vec(rt.alloc())?,
        calls: 0,
    };
    read_twice(&rt, &mut reader);
    Ok(())
}

#[test]
fn standard_output(rt: HostRuntime) {
    let mut sink = WriterSink::new(io::writer(&rt));
    assert!(rt; sink.write(b"written\n") == Ok(8));
    assert!(rt; sink.flush() == Ok(()));
}
