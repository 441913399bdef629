//! The marks of included books.

ghost use Rattle.std.specs.Prelude.{◌≡◌, [], ◌∷◌, ◌++◌, OnOk, OnErr};
ghost use Rattle.gl_book.specs.Lines.{mark_line};
ghost use Rattle.gl_book.specs.Stops.{IsCounted, WritesBefore, WritesBeforeFront};

use super::line_list::Lines;
use super::lines::add_named;
use super::observer::Observer;
use super::origin::Origin;
use super::put_event::put_behind;
use super::stop::Stop;
use book_shelf::Mark;
use gl_logic::{NoMemory, Texts};
use std::alloc::Global;

/// Adds the line of a mark: its word, and the name as it stands in the form.
pub(crate) fn add_mark(
    alloc: Global,
    mark: Mark,
    texts: &Texts,
    lines: &mut Lines,
) -> Result<(), NoMemory>
    ensures { OnOk result (lines.new ≡ lines.old ++ mark_line texts.now mark ∷ []) }
{
    match mark {
        Mark::Book(name) => add_named(alloc, b"BOOK ", name, b"", texts, lines),
        Mark::End(name) => add_named(alloc, b"END ", name, b"", texts, lines),
        Mark::Same(name) => add_named(alloc, b"SAME ", name, b"", texts, lines),
    }
}

/// Writes the line of a mark, where not the last line alone is written.
pub(crate) fn put_mark<O: Observer>(
    alloc: Global,
    number: u64,
    mark: Mark,
    texts: &Texts,
    last_only: bool,
    out: &mut O,
) -> Result<(), Stop>
    ensures ok { OnOk result (WritesBefore last_only (mark_line texts.now mark ∷ []) (O.written out.old) (O.written out.new)) }
    ensures front { OnErr result (WritesBeforeFront last_only (mark_line texts.now mark ∷ []) (O.written out.old) (O.written out.new)) }
    ensures cause { IsCounted (O.faults out.old) (O.faults out.new) result }
    ensures unstalled { O.stalls out.new ≡ O.stalls out.old }
{
    let mut lines = Lines::new(alloc);
    lines.turn_to(Origin::Mark(number));
    let Ok(()) = add_mark(alloc, mark, texts, &mut lines) else {
        return Err(Stop::Memory);
    };
    put_behind(&lines, last_only, out)
}
