//! Lines to an observer.

ghost use Rattle.std.specs.Prelude.{◌≡◌, ◌<◌, ◌-◌, ℕ, [], length, get_or, take, OnOk, OnErr};
ghost use Rattle.std.specs.List.{concat};
ghost use Rattle.gl_book.specs.Transcript.{told};
ghost use Rattle.gl_base.specs.Outside.{HasCause, Grows, Stays};

use super::line_list::Lines;
use super::observer::Observer;
use gl_base::failed::Failed;

/// Hands over each line as a piece of its own. Where a call fails, the bytes that were taken are a front of the
/// lines.
pub fn put_lines<O: Observer>(lines: &Lines, out: &mut O) -> Result<(), Failed>
    ensures ok { OnOk result (Grows (O.written out.old) (O.written out.new) (concat lines.now)) }
    ensures front { OnErr result ((n : ℕ) × Grows (O.written out.old) (O.written out.new) (take n (concat lines.now))) }
    ensures cause { HasCause (O.faults out.old) (O.faults out.new) result }
    ensures unstalled { O.stalls out.new ≡ O.stalls out.old }
{
    for i in 0..lines.len() {
        out.put(lines.of(i), lines.at(i))?;
    }
    Ok(())
}

/// Hands over the last line alone.
fn put_last<O: Observer>(lines: &Lines, out: &mut O) -> Result<(), Failed>
    requires { 0 < length lines.now }
    ensures ok { OnOk result (Grows (O.written out.old) (O.written out.new) (get_or lines.now (length lines.now - 1) [])) }
    ensures front { OnErr result ((n : ℕ) × Grows (O.written out.old) (O.written out.new) (take n (get_or lines.now (length lines.now - 1) []))) }
    ensures cause { HasCause (O.faults out.old) (O.faults out.new) result }
    ensures unstalled { O.stalls out.new ≡ O.stalls out.old }
{
    out.put(lines.of(lines.len() - 1), lines.at(lines.len() - 1))
}

/// Hands over all lines, or the last one alone.
fn put_some<O: Observer>(lines: &Lines, last_only: bool, out: &mut O) -> Result<(), Failed>
    requires { 0 < length lines.now }
    ensures ok { OnOk result (Grows (O.written out.old) (O.written out.new) (told last_only lines.now)) }
    ensures front { OnErr result ((n : ℕ) × Grows (O.written out.old) (O.written out.new) (take n (told last_only lines.now))) }
    ensures cause { HasCause (O.faults out.old) (O.faults out.new) result }
    ensures unstalled { O.stalls out.new ≡ O.stalls out.old }
{
    if last_only {
        put_last(lines, out)
    } else {
        put_lines(lines, out)
    }
}

/// Hands over all lines, or the last one alone, and then flushes once.
pub fn put_told<O: Observer>(lines: &Lines, last_only: bool, out: &mut O) -> Result<(), Failed>
    requires { 0 < length lines.now }
    ensures ok { OnOk result (Grows (O.written out.old) (O.written out.new) (told last_only lines.now)) }
    ensures front { OnErr result ((n : ℕ) × Grows (O.written out.old) (O.written out.new) (take n (told last_only lines.now))) }
    ensures cause { HasCause (O.faults out.old) (O.faults out.new) result }
    ensures unstalled { O.stalls out.new ≡ O.stalls out.old }
{
    put_some(lines, last_only, out)?;
    flush(out)
}

/// Flushes an observer.
fn flush<O: Observer>(out: &mut O) -> Result<(), Failed>
    ensures same { Stays (O.written out.old) (O.written out.new) }
    ensures cause { HasCause (O.faults out.old) (O.faults out.new) result }
    ensures unstalled { O.stalls out.new ≡ O.stalls out.old }
{
    out.flush()
}
