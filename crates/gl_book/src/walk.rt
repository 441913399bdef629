//! The walk over a book's forms and the marks of the books that it includes.

ghost use Rattle.std.specs.Prelude.{◌≡◌, ◌+◌, ℕ, List, All, true, [], ◌∷◌, ◌++◌, length, Ok, IfOk, OnOk, OnErr};
ghost use Rattle.gl_logic.specs.Names.{with_name};
ghost use Rattle.book_shelf.specs.declared.finish.Finish.{Finish as FinishSeen};
ghost use Rattle.book_shelf.specs.declared.item.Item.{Item as ItemSeen};
ghost use Rattle.book_shelf.specs.declared.item.Item.TheVariants as item;
ghost use Rattle.event_world.specs.NextState.{BookState};
ghost use Rattle.event_world.specs.Seen.{event_seen};
ghost use Rattle.event_world.specs.Suits.{Suits};
ghost use Rattle.gl_decide.specs.Bounds.{Bounds, bounds_of};
ghost use Rattle.book_state.specs.Answerable.{IsAnswerable};
ghost use Rattle.gl_book.specs.Answers.{IsProperAnswer};
ghost use Rattle.gl_book.specs.Courses.{ComesToEnd, HasRoomFor, LeadsAlong, LeadsPast, LeadsPastToFront, course_from, place_at};
ghost use Rattle.gl_book.specs.Courses.{Follows, IsNext, IsPutBehind, Waits};
ghost use Rattle.gl_book.specs.Entry.{Entry};
ghost use Rattle.gl_book.specs.Lines.{counts_of};
ghost use Rattle.gl_book.specs.Phases.{CanBeAnswered, StaysIn, ends_phase as ends_phase_seen, jobs_of, stays_by};
ghost use Rattle.book_state.specs.States.{is_job as is_job_seen};
ghost use Rattle.gl_book.specs.Walk.{Walk, end_code as end_code_meant, refused_cause as cause_of, refusal_at as refusal_there};
ghost use Rattle.book_state.specs.States.{CanGoOn};
ghost use Rattle.gl_book.specs.Stops.{IsCounted, refusal_of as refusal_meant, closing_lines, closing_status};
ghost use Rattle.gl_book.specs.Stops.{WritesLines, WritesLinesFront, WritesWalk, WritesWalkFront};

use super::answer::{Answer, Cause, answer_of};
use super::counts::Counts;
use super::ending::end_phase;
use super::line_list::Lines;
use super::marks::put_mark;
use super::observer::{Answered, Observer};
use super::one_run::Run;
use super::origin::Spot;
use super::progress::Progress;
use super::put_event::put_event;
use super::put_lines::put_told;
use super::refusal::{Refusal, RefusalCode, line_of_refusal};
use super::stop::Stop;
use super::waiting::Waiting;
use book_shelf::{Finish, Item, Library, Mark, ShelfCode};
use book_state::State;
use event_world::{Event, EventFault};
use gl_base::limits::Limits;
use gl_base::status::Status;
use gl_decide::Gate;
use gl_logic::{NoMemory, Texts, Tree};
use sexp_reader::Form;
use std::alloc::Global;
use std::thread::Threads;

/// Walks over the list of a book from a state on, up to its end or its refusal, and writes what comes of its forms and
/// marks, or the last line alone. Each stall is put last among the others right before the lines of its theorem are
/// written. Answers the status of the whole.
///
/// With one worker the lines of each event are written before the next form is looked at. With more, values, asserts and
/// theorems wait for the end of their phase, which is an event that changes definitions or constants, a refusal, or the
/// end of the list. A mark ends no phase.
pub fn walk<R: Threads + Sync, O: Observer, G: Gate>(
    run: &Run<'_, R, G>,
    book: &Library,
    state: State,
    texts: &mut Texts,
    out: &mut O,
) -> Result<Status, Stop>
    requires empty { with_name texts.old [] ≡ texts.old }
    requires can_go_on { CanGoOn state }
    ensures ok { IfOk result (WritesWalk texts.old (bounds_of run.now.limits.now) state book.now run.now.last_only
        (O.written out.old) (O.written out.new) (O.stalls out.old) (O.stalls out.new)) }
    ensures front { OnErr result (WritesWalkFront texts.old (bounds_of run.now.limits.now) state book.now run.now.last_only
        (O.written out.old) (O.written out.new) (O.stalls out.old) (O.stalls out.new)) }
    ensures texts { texts.new ≡ texts.old }
    ensures cause { IsCounted (O.faults out.old) (O.faults out.new) result }
{
    let mut progress = Progress {
        state,
        counts: Counts::none(),
        waiting: Waiting::new(run.alloc),
    };
    let ended = take_items(run, book, &mut progress, texts, out);
    let counts = progress.counts;
    match ended {
        Ok(refusal) => {
            tell_refusal(refusal, &progress.state, out);
            drop(progress);
            close(run.alloc, refusal, counts, run.last_only, out)
        }
        Err(stop) => {
            drop(progress);
            Err(stop)
        }
    }
}

/// Tells a refusal, where there is one.
fn tell_refusal<O: Observer>(refusal: Option<Refusal>, state: &State, out: &mut O)
    ensures unstalled { O.stalls out.new ≡ O.stalls out.old }
    ensures unwritten { O.written out.new ≡ O.written out.old }
    ensures unfailed { O.faults out.new ≡ O.faults out.old }
{
    if let Some(refusal) = refusal {
        out.refused(&refusal, state);
    }
}

/// Takes the items of a book in, up to the first that is refused, and ends the last phase. The refusal, which the end of the
/// list may be.
fn take_items<R: Threads + Sync, O: Observer, G: Gate>(
    run: &Run<'_, R, G>,
    book: &Library,
    progress: &mut Progress,
    texts: &mut Texts,
    out: &mut O,
) -> Result<Option<Refusal>, Stop>
    requires empty { with_name texts.old [] ≡ texts.old }
    requires can_go_on { CanGoOn progress.old.state }
    requires uncounted { progress.old.counts ≡ counts_of [] }
    requires none { jobs_of progress.old.waiting ≡ [] }
    ensures ok { IfOk result (ComesToEnd texts.old (bounds_of run.now.limits.now) run.now.last_only
        (course_from book.now (place_at progress.old (O.written out.old) (O.stalls out.old))) (place_at progress.new (O.written out.new) (O.stalls out.new))) }
    ensures front { OnErr result (WritesWalkFront texts.old (bounds_of run.now.limits.now) progress.old.state book.now run.now.last_only
        (O.written out.old) (O.written out.new) (O.stalls out.old) (O.stalls out.new)) }
    ensures texts { texts.new ≡ texts.old }
    ensures cause { IsCounted (O.faults out.old) (O.faults out.new) result }
{
    for i in 0..book.items.len() {
        let next = book.items.at(i);
        let refusal = take_item(run, i, next, progress, texts, out)?;
        if let Some(refusal) = refusal {
            return Ok(Some(refusal));
        }
    }
    end_phase(run, progress, texts, out)?;
    Ok(refusal_of(book.finish))
}

/// Takes the next item in. Its refusal, where it is refused; no job waits then.
fn take_item<R: Threads + Sync, O: Observer, G: Gate>(
    run: &Run<'_, R, G>,
    number: u64,
    next: &Item,
    progress: &mut Progress,
    texts: &mut Texts,
    out: &mut O,
) -> Result<Option<Refusal>, Stop>
    requires empty { with_name texts.old [] ≡ texts.old }
    requires ready { All (CanBeAnswered progress.old.state.world.definitions) (jobs_of progress.old.waiting) }
    requires room { HasRoomFor (length (jobs_of progress.old.waiting) + 1) progress.old.counts }
    ensures ok { IfOk result (λ r. LeadsPast texts.old (bounds_of run.now.limits.now) run.now.last_only next.now
        (place_at progress.old (O.written out.old) (O.stalls out.old)) r (place_at progress.new (O.written out.new) (O.stalls out.new))) }
    ensures front { OnErr result (LeadsPastToFront texts.old (bounds_of run.now.limits.now) run.now.last_only next.now
        (place_at progress.old (O.written out.old) (O.stalls out.old)) (O.written out.new) (O.stalls out.new)) }
    ensures texts { texts.new ≡ texts.old }
    ensures cause { IsCounted (O.faults out.old) (O.faults out.new) result }
{
    match next {
        Item::Form(form) => take_form(run, number, form, progress, texts, out),
        Item::Mark(mark) => match take_mark(run, number, *mark, progress, texts, out) {
            Ok(()) => Ok(None),
            Err(stop) => Err(stop),
        },
    }
}

/// Takes a mark in: its line is written at once, or comes behind those of the last job that waits.
fn take_mark<R: Threads + Sync, O: Observer, G: Gate>(
    run: &Run<'_, R, G>,
    number: u64,
    mark: Mark,
    progress: &mut Progress,
    texts: &Texts,
    out: &mut O,
) -> Result<(), Stop>
    ensures ok { OnOk result (LeadsPast texts.now (bounds_of run.now.limits.now) run.now.last_only (item.Mark mark)
        (place_at progress.old (O.written out.old) (O.stalls out.old)) None (place_at progress.new (O.written out.new) (O.stalls out.new))) }
    ensures front { OnErr result (LeadsPastToFront texts.now (bounds_of run.now.limits.now) run.now.last_only (item.Mark mark)
        (place_at progress.old (O.written out.old) (O.stalls out.old)) (O.written out.new) (O.stalls out.new)) }
    ensures cause { IsCounted (O.faults out.old) (O.faults out.new) result }
{
    if progress.waiting.len() > 0 {
        return match progress.waiting.follow_mark(run.alloc, number, mark, texts) {
            Ok(()) => Ok(()),
            Err(_) => Err(Stop::Memory),
        };
    }
    put_mark(run.alloc, number, mark, texts, run.last_only, out)
}

/// Takes the next form in. Its refusal, where it is refused; no job waits then.
fn take_form<R: Threads + Sync, O: Observer, G: Gate>(
    run: &Run<'_, R, G>,
    number: u64,
    form: &Form,
    progress: &mut Progress,
    texts: &mut Texts,
    out: &mut O,
) -> Result<Option<Refusal>, Stop>
    requires empty { with_name texts.old [] ≡ texts.old }
    requires ready { All (CanBeAnswered progress.old.state.world.definitions) (jobs_of progress.old.waiting) }
    requires room { HasRoomFor (length (jobs_of progress.old.waiting) + 1) progress.old.counts }
    ensures ok { IfOk result (λ r. LeadsPast texts.old (bounds_of run.now.limits.now) run.now.last_only (item.Form form.now)
        (place_at progress.old (O.written out.old) (O.stalls out.old)) r (place_at progress.new (O.written out.new) (O.stalls out.new))) }
    ensures front { OnErr result (LeadsPastToFront texts.old (bounds_of run.now.limits.now) run.now.last_only (item.Form form.now)
        (place_at progress.old (O.written out.old) (O.stalls out.old)) (O.written out.new) (O.stalls out.new)) }
    ensures texts { texts.new ≡ texts.old }
    ensures cause { IsCounted (O.faults out.old) (O.faults out.new) result }
{
    match progress.state.event(run.alloc, &form.tree, texts) {
        Ok(event) => take_event(run, number, form, event, progress, texts, out),
        Err(fault) => match fault {
            EventFault::Memory => Err(Stop::Memory),
            _ => {
                end_phase(run, progress, texts, out)?;
                Ok(Some(refusal_at(form, RefusalCode::Event(fault))))
            }
        },
    }
}

/// Takes the event of the next form in. The form's refusal, where it is a constant without a value; no job waits then.
fn take_event<R: Threads + Sync, O: Observer, G: Gate>(
    run: &Run<'_, R, G>,
    number: u64,
    form: &Form,
    event: Event,
    progress: &mut Progress,
    texts: &Texts,
    out: &mut O,
) -> Result<Option<Refusal>, Stop>
    requires next { IsNext texts.now progress.old.state form.now.tree (event_seen event) }
    requires ready { All (CanBeAnswered progress.old.state.world.definitions) (jobs_of progress.old.waiting) }
    requires room { HasRoomFor (length (jobs_of progress.old.waiting) + 1) progress.old.counts }
    ensures ok { IfOk result (λ r. LeadsPast texts.now (bounds_of run.now.limits.now) run.now.last_only (item.Form form.now)
        (place_at progress.old (O.written out.old) (O.stalls out.old)) r (place_at progress.new (O.written out.new) (O.stalls out.new))) }
    ensures front { OnErr result (LeadsPastToFront texts.now (bounds_of run.now.limits.now) run.now.last_only (item.Form form.now)
        (place_at progress.old (O.written out.old) (O.stalls out.old)) (O.written out.new) (O.stalls out.new)) }
    ensures cause { IsCounted (O.faults out.old) (O.faults out.new) result }
{
    if stays(run.limits, &progress.waiting, &event) {
        return match take_along(run, number, form, event, progress, texts) {
            Ok(()) => Ok(None),
            Err(_) => Err(Stop::Memory),
        };
    }
    match end_phase(run, progress, texts, out) {
        Ok(()) => answer_now(run, number, form, event, progress, texts, out),
        Err(stop) => {
            drop(event);
            Err(stop)
        }
    }
}

/// Whether an event is taken in before its phase ends: a job, where more than one worker is there to answer it, and another
/// event behind a job, unless it ends the phase.
fn stays(limits: &Limits, waiting: &Waiting, event: &Event) -> bool
    ensures exact { result ≡ stays_by limits.now.workers (jobs_of waiting.now) (event_seen event.now) }
    ensures stays { result ≡ true → StaysIn (jobs_of waiting.now) (event_seen event.now) }
{
    if is_job(event) {
        limits.workers != 1
    } else {
        waiting.len() > 0 && !ends_phase(event)
    }
}

/// Takes an event in before its phase ends: a job waits, and another event is answered.
fn take_along<R: Threads + Sync, G: Gate>(
    run: &Run<'_, R, G>,
    number: u64,
    form: &Form,
    event: Event,
    progress: &mut Progress,
    texts: &Texts,
) -> Result<(), NoMemory>
    requires next { IsNext texts.now progress.old.state form.now.tree (event_seen event) }
    requires stays { StaysIn (jobs_of progress.old.waiting) (event_seen event) }
    ensures { OnOk result (LeadsAlong texts.now (bounds_of run.now.limits.now) run.now.last_only (item.Form form.now) progress.old progress.new) }
{
    if is_job(&event) {
        wait(run.alloc, number, form, event, progress)
    } else {
        follow(run, number, form, event, progress, texts)
    }
}

/// Lets a job wait for the end of its phase.
fn wait(
    alloc: Global,
    number: u64,
    form: &Form,
    event: Event,
    progress: &mut Progress,
) -> Result<(), NoMemory>
    requires job { is_job_seen (event_seen event) ≡ true }
    requires suits { Suits progress.old.state.world (event_seen event) }
    ensures { OnOk result (Waits form.now.tree (event_seen event) progress.old progress.new) }
{
    match progress.state.note(alloc, &form.tree, &event) {
        Ok(()) => progress.waiting.push(
            alloc,
            Spot::of(number, form),
            event,
            progress.state.memoized(),
        ),
        Err(fault) => {
            drop(event);
            Err(fault)
        }
    }
}

/// Answers an event that is no job and ends no phase, while jobs wait, and takes it in.
fn follow<R: Threads + Sync, G: Gate>(
    run: &Run<'_, R, G>,
    number: u64,
    form: &Form,
    event: Event,
    progress: &mut Progress,
    texts: &Texts,
) -> Result<(), NoMemory>
    requires suits { Suits progress.old.state.world (event_seen event) }
    requires answerable { IsAnswerable progress.old.state.world.definitions progress.old.state.memoized (event_seen event) }
    ensures { OnOk result (Follows texts.now (bounds_of run.now.limits.now) form.now.tree (event_seen event) progress.old progress.new) }
{
    match answer_behind(
        run,
        Spot::of(number, form),
        &event,
        &progress.state,
        &mut progress.waiting,
        texts,
    ) {
        Ok(()) => progress
            .state
            .take(run.alloc, &form.tree, event, Tree::nil()),
        Err(fault) => {
            drop(event);
            Err(fault)
        }
    }
}

/// Answers an event of a state, and puts its lines behind those of the last job.
fn answer_behind<R: Threads + Sync, G: Gate>(
    run: &Run<'_, R, G>,
    spot: Spot,
    event: &Event,
    state: &State,
    waiting: &mut Waiting,
    texts: &Texts,
) -> Result<(), NoMemory>
    requires { IsAnswerable state.now.world.definitions state.now.memoized (event_seen event.now) }
    ensures { OnOk result (IsPutBehind texts.now (bounds_of run.now.limits.now) state.now (event_seen event.now) (jobs_of waiting.old) (jobs_of waiting.new)) }
{
    let answer = answer_to(run, state, event);
    let put = waiting.follow(run.alloc, spot, event, &answer, texts);
    drop(answer);
    put
}

/// The answer to an event of a state.
fn answer_to<R: Threads + Sync, G: Gate>(
    run: &Run<'_, R, G>,
    state: &State,
    event: &Event,
) -> Answer
    requires { IsAnswerable state.now.world.definitions state.now.memoized (event_seen event.now) }
    ensures { IsProperAnswer (bounds_of run.now.limits.now) state.now.world state.now.memoized (event_seen event.now) result }
{
    answer_of(
        run.rt,
        run.alloc,
        state.world(),
        state.memoized(),
        event,
        run.limits,
    )
}

/// Answers an event while no job waits, writes its lines, and takes it in.
fn answer_now<R: Threads + Sync, O: Observer, G: Gate>(
    run: &Run<'_, R, G>,
    number: u64,
    form: &Form,
    event: Event,
    progress: &mut Progress,
    texts: &Texts,
    out: &mut O,
) -> Result<Option<Refusal>, Stop>
    requires next { IsNext texts.now progress.old.state form.now.tree (event_seen event) }
    requires none { jobs_of progress.old.waiting ≡ [] }
    requires room { HasRoomFor 1 progress.old.counts }
    ensures ok { IfOk result (λ r. LeadsPast texts.now (bounds_of run.now.limits.now) run.now.last_only (item.Form form.now)
        (place_at progress.old (O.written out.old) (O.stalls out.old)) r (place_at progress.new (O.written out.new) (O.stalls out.new))) }
    ensures front { OnErr result (LeadsPastToFront texts.now (bounds_of run.now.limits.now) run.now.last_only (item.Form form.now)
        (place_at progress.old (O.written out.old) (O.stalls out.old)) (O.written out.new) (O.stalls out.new)) }
    ensures cause { IsCounted (O.faults out.old) (O.faults out.new) result }
{
    let answer = answer_to(run, &progress.state, &event);
    if let Some(cause) = refused_cause(&event, &answer) {
        drop(event);
        drop(answer);
        return match cause {
            Cause::Memory => Err(Stop::Memory),
            _ => Ok(Some(refusal_at(form, RefusalCode::Constant(cause)))),
        };
    }
    progress.counts = progress.counts.with(&answer);
    let at = Answered {
        spot: Spot::of(number, form),
        world: progress.state.world(),
        memoized: progress.state.memoized(),
        event: &event,
    };
    let value = match put_event(run.alloc, at, answer, texts, run.last_only, out) {
        Ok(value) => value,
        Err(stop) => {
            drop(event);
            return Err(stop);
        }
    };
    match progress.state.take(run.alloc, &form.tree, event, value) {
        Ok(()) => Ok(None),
        Err(_) => Err(Stop::Memory),
    }
}

/// Whether an event is a job: its answer may come later.
fn is_job(event: &Event) -> bool
    ensures { result ≡ is_job_seen (event_seen event.now) }
{
    matches!(
        event,
        Event::Value(_) | Event::Assert(_) | Event::Theorem(_) | Event::Cases(_)
    )
}

/// Whether an event ends the phase before it, since later answers rest on it.
fn ends_phase(event: &Event) -> bool
    ensures { result ≡ ends_phase_seen (event_seen event.now) }
{
    matches!(
        event,
        Event::Defun(_) | Event::Clique(_) | Event::Defconst(_, _)
    )
}

/// A refusal at a form's place.
fn refusal_at(form: &Form, code: RefusalCode) -> Refusal
    ensures { result ≡ refusal_there form.now code }
{
    Refusal {
        line: form.line,
        column: form.column,
        code,
    }
}

/// The refusal by the end of a list, where that is none.
fn refusal_of(finish: Finish) -> Option<Refusal>
    ensures { result ≡ refusal_meant finish }
{
    match finish {
        Finish::Clean => None,
        Finish::Refused(line, column, fault) => Some(Refusal {
            line,
            column,
            code: end_code(fault),
        }),
    }
}

/// The code of the end of a list.
fn end_code(fault: ShelfCode) -> RefusalCode
    ensures { result ≡ end_code_meant fault }
{
    match fault {
        ShelfCode::Text(fault) => RefusalCode::Text(fault),
        ShelfCode::TooLong => RefusalCode::TooLong,
        ShelfCode::Cyclic => RefusalCode::Cyclic,
        ShelfCode::Many => RefusalCode::Many,
    }
}

/// The cause for which a constant has no value.
pub(crate) fn refused_cause(event: &Event, answer: &Answer) -> Option<Cause>
    ensures { result ≡ cause_of (event_seen event.now) answer.now }
{
    match (event, answer) {
        (Event::Defconst(_, _), Answer::Undecided(cause)) => Some(*cause),
        _ => None,
    }
}

/// Writes the lines that end a transcript, or the last one alone, and flushes. Answers the status.
pub fn close<O: Observer>(
    alloc: Global,
    refusal: Option<Refusal>,
    counts: Counts,
    last_only: bool,
    out: &mut O,
) -> Result<Status, Stop>
    ensures ok { OnOk result (WritesLines last_only (closing_lines counts refusal) (O.written out.old) (O.written out.new)) }
    ensures status { IfOk result (λ s. s ≡ closing_status counts refusal) }
    ensures front { OnErr result (WritesLinesFront last_only (closing_lines counts refusal) (O.written out.old) (O.written out.new)) }
    ensures cause { IsCounted (O.faults out.old) (O.faults out.new) result }
    ensures unstalled { O.stalls out.new ≡ O.stalls out.old }
{
    let Ok(lines) = lines_that_close(alloc, refusal, counts) else {
        return Err(Stop::Memory);
    };
    let Ok(()) = put_told(&lines, last_only, out) else {
        return Err(Stop::Write);
    };
    Ok(match refusal {
        Some(_) => Status::BookRefused,
        None => counts.status(),
    })
}

/// The lines that end a transcript.
fn lines_that_close(
    alloc: Global,
    refusal: Option<Refusal>,
    counts: Counts,
) -> Result<Lines, NoMemory>
    ensures { IfOk result (λ lines. lines ≡ closing_lines counts refusal) }
{
    let mut lines = Lines::new(alloc);
    if let Some(refusal) = refusal {
        lines.push(line_of_refusal(alloc, refusal)?)?;
    }
    lines.push(counts.line(alloc)?)?;
    Ok(lines)
}

/// A law: each walk that has come to some list, in a state whose world has all ground definitions and cliques of
/// admissible ones, can be gone on with, whatever memory is refused.
pub fn every_walk_goes_on()
    ensures { (names : List (List ℕ)) (bounds : Bounds) (state : BookState) (items : List ItemSeen) (end : FinishSeen)
        → CanGoOn state → (entries : List Entry) × Walk names bounds state items end entries }
{}
