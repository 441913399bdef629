//! The answer to one event and its lines, to an observer.

ghost use Rattle.std.specs.Prelude.{◌≡◌, IfOk, OnOk, OnErr};
ghost use Rattle.std.specs.List.{concat};
ghost use Rattle.event_world.specs.Seen.{event_seen};
ghost use Rattle.gl_book.specs.Courses.{job_lines};
ghost use Rattle.gl_book.specs.Entry.{stalls_of};
ghost use Rattle.gl_book.specs.Lines.{event_lines};
ghost use Rattle.book_state.specs.Answerable.{IsAnswerable};
ghost use Rattle.gl_book.specs.Phases.{CanBeAnswered, job_seen};
ghost use Rattle.gl_book.specs.Walk.{value_in};
ghost use Rattle.gl_book.specs.Stops.{IsCounted, Keeps, KeepsFront, WritesBefore, WritesBeforeFront, told_before};

use super::answer::Answer;
use super::job::Job;
use super::line_list::Lines;
use super::lines::add_event_lines;
use super::observer::{Answered, Observer};
use super::origin::{Origin, Spot};
use super::put_lines::put_lines;
use super::stop::Stop;
use event_world::Event;
use gl_logic::{NoMemory, Texts, Tree, World};
use std::alloc::Global;

/// Tells an observer the answer to an event, and then its lines, where not the last line alone is told. The answer's value, NIL
/// where it has none.
pub(crate) fn put_event<O: Observer>(
    alloc: Global,
    at: Answered<'_>,
    answer: Answer,
    texts: &Texts,
    last_only: bool,
    out: &mut O,
) -> Result<Tree, Stop>
    requires { IsAnswerable at.world.now.definitions at.memoized.now (event_seen at.event.now) }
    ensures ok { OnOk result (WritesBefore last_only (event_lines texts.now (event_seen at.entry.event.now) answer) (O.written out.old) (O.written out.new)) }
    ensures kept { OnOk result (Keeps (stalls_of answer) (O.stalls out.old) (O.stalls out.new)) }
    ensures value { IfOk result (λ x. x ≡ value_in answer) }
    ensures front { OnErr result (WritesBeforeFront last_only (event_lines texts.now (event_seen at.entry.event.now) answer) (O.written out.old) (O.written out.new)) }
    ensures kept_front { OnErr result (KeepsFront (stalls_of answer) (O.stalls out.old) (O.stalls out.new)) }
    ensures cause { IsCounted (O.faults out.old) (O.faults out.new) result }
{
    let Ok(lines) = lines_told(alloc, at.spot, at.event, &answer, texts, last_only) else {
        drop(answer);
        return Err(Stop::Memory);
    };
    let Ok(value) = out.answered(at, texts, answer) else {
        return Err(Stop::Memory);
    };
    let Ok(()) = put_lines(&lines, out) else {
        return Err(Stop::Write);
    };
    Ok(value)
}

/// The lines of an event with its answer, and none where the last line alone is written.
fn lines_told(
    alloc: Global,
    spot: Spot,
    event: &Event,
    answer: &Answer,
    texts: &Texts,
    last_only: bool,
) -> Result<Lines, NoMemory>
    ensures { IfOk result (λ lines. concat lines ≡ told_before last_only (event_lines texts.now (event_seen event.now) answer.now)) }
{
    let mut lines = Lines::new(alloc);
    lines.turn_to(Origin::Event(spot));
    if !last_only {
        add_event_lines(alloc, event, answer, texts, &mut lines)?;
    }
    Ok(lines)
}

/// Does the same for a job, and writes the lines behind it.
pub(crate) fn put_job<O: Observer>(
    alloc: Global,
    job: &Job,
    world: &World,
    answer: Answer,
    texts: &Texts,
    last_only: bool,
    out: &mut O,
) -> Result<(), Stop>
    requires { CanBeAnswered world.now.definitions (job_seen job.now) }
    ensures ok { OnOk result (WritesBefore last_only (job_lines texts.now (job_seen job.now) answer) (O.written out.old) (O.written out.new)) }
    ensures kept { OnOk result (Keeps (stalls_of answer) (O.stalls out.old) (O.stalls out.new)) }
    ensures front { OnErr result (WritesBeforeFront last_only (job_lines texts.now (job_seen job.now) answer) (O.written out.old) (O.written out.new)) }
    ensures kept_front { OnErr result (KeepsFront (stalls_of answer) (O.stalls out.old) (O.stalls out.new)) }
    ensures cause { IsCounted (O.faults out.old) (O.faults out.new) result }
{
    let at = Answered {
        spot: job.spot,
        world,
        memoized: &job.memoized,
        event: &job.event,
    };
    put_event(alloc, at, answer, texts, last_only, out)?;
    put_behind(&job.behind, last_only, out)
}

/// Writes lines, where not the last line alone is written.
pub(crate) fn put_behind<O: Observer>(
    lines: &Lines,
    last_only: bool,
    out: &mut O,
) -> Result<(), Stop>
    ensures ok { OnOk result (WritesBefore last_only lines.now (O.written out.old) (O.written out.new)) }
    ensures front { OnErr result (WritesBeforeFront last_only lines.now (O.written out.old) (O.written out.new)) }
    ensures cause { IsCounted (O.faults out.old) (O.faults out.new) result }
    ensures unstalled { O.stalls out.new ≡ O.stalls out.old }
{
    if last_only {
        return Ok(());
    }
    let Ok(()) = put_lines(lines, out) else {
        return Err(Stop::Write);
    };
    Ok(())
}
