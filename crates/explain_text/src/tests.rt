//! The places of lines, whatever an event's lines are.

use crate::manner::{Format, Manner};
use crate::places::Places;
use crate::progress::Progress;
use crate::screen::Screen;
use crate::shown::Shown;
use gl_base::memory_sink::MemorySink;
use gl_book::{LineOf, Observer, Origin, Spot};
use gl_decide::Stalls;
use gl_logic::NoMemory;
use std::alloc::Global;
use std::process::Abort;
use std::rt::Clock;

const MANNER: Manner = Manner {
    format: Format::Text,
    colors: false,
    seconds: false,
    shows_all: true,
    tries: None,
};

/// The places of two items of a book.
fn places(alloc: Global) -> Result<Places, NoMemory> {
    let mut places = Places::new(alloc, b"b.lisp")?;
    places.put(1, 1)?;
    places.put(5, 3)?;
    places.put(0, 0)?;
    Ok(places)
}

/// Shows lines: two of the first item, one of the second, and one of an input of that; and then the last line.
fn show<R: Clock>(
    shown: &mut Shown<'_, R, MemorySink, MemorySink>,
    first: Spot,
    second: Spot,
) -> bool {
    let lines = [
        (Origin::Event(first), b"ONE\n".as_slice()),
        (Origin::Event(first), b"TWO\n".as_slice()),
        (Origin::Event(second), b"THREE\n".as_slice()),
        (Origin::Input(second), b"  X = 1\n".as_slice()),
        (Origin::End, b"DONE\n".as_slice()),
    ];
    for (origin, line) in &lines {
        let of = LineOf {
            origin: *origin,
            name: b"",
        };
        if shown.put(of, *line).is_err() {
            return false;
        }
    }
    true
}

#[test]
fn an_event_of_two_lines(rt: HostRuntime) {
    let alloc = rt.alloc();
    let places = places(alloc).expect(&rt, "memory");
    let out = MemorySink::new(alloc, 1000, Vec::new(alloc)).expect(&rt, "memory");
    let progress = Progress::new();
    let mut shown = Shown {
        out,
        screen: Screen::new(&rt, alloc, places, MANNER, None, &progress),
        stalls: Stalls::new(alloc),
        lacks: 0,
    };
    let first = Spot {
        item: 0,
        line: 1,
        column: 1,
    };
    let second = Spot {
        item: 1,
        line: 5,
        column: 3,
    };
    assert!(rt; show(&mut shown, first, second));
    let wanted: &[u8] = b"b.lisp:1:1: ONE\nb.lisp:1:1: TWO\nb.lisp:5:3: THREE\n  X = 1\nDONE\n";
    assert!(rt; shown.out.bytes() == wanted);
}
