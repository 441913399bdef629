//! The end of a phase: the jobs that wait are answered, and their lines are written in the order of the book.

ghost use Rattle.std.specs.Prelude.{◌≡◌, All, IfOk, OnOk, OnErr, length};
ghost use Rattle.gl_decide.specs.Bounds.{bounds_of};
ghost use Rattle.gl_book.specs.Courses.{EndsPhase, EndsPhaseByFront, HasRoomFor, WritesPhase, WritesPhaseFront, KeepsPhase, KeepsPhaseFront, counts_after};
ghost use Rattle.gl_book.specs.Phases.{AreAnswered, CanBeAnswered, jobs_of};
ghost use Rattle.gl_book.specs.Stops.{IsCounted};

use super::answer::Answer;
use super::counts::Counts;
use super::observer::Observer;
use super::one_run::Run;
use super::phase::phase_answers;
use super::progress::Progress;
use super::put_event::put_job;
use super::stop::Stop;
use super::waiting::Waiting;
use book_state::State;
use gl_decide::Gate;
use gl_logic::{NoMemory, Texts, World};
use std::mem;
use std::thread::Threads;

/// Answers the jobs that wait, in the world at the end of their phase, and writes their lines in the order of the book,
/// where not the last line alone is written. None wait afterwards.
pub(crate) fn end_phase<R: Threads + Sync, O: Observer, G: Gate>(
    run: &Run<'_, R, G>,
    progress: &mut Progress,
    texts: &Texts,
    out: &mut O,
) -> Result<(), Stop>
    requires ready { All (CanBeAnswered progress.old.state.world.definitions) (jobs_of progress.old.waiting) }
    requires room { HasRoomFor (length (jobs_of progress.old.waiting)) progress.old.counts }
    ensures ok { OnOk result (EndsPhase texts.now (bounds_of run.now.limits.now) run.now.last_only
        progress.old (O.written out.old) (O.stalls out.old) progress.new (O.written out.new) (O.stalls out.new)) }
    ensures front { OnErr result (EndsPhaseByFront texts.now (bounds_of run.now.limits.now) run.now.last_only
        progress.old (O.written out.old) (O.stalls out.old) (O.written out.new) (O.stalls out.new)) }
    ensures cause { IsCounted (O.faults out.old) (O.faults out.new) result }
{
    let Ok(answers) = answers_at(run, &progress.state, &progress.waiting) else {
        return Err(Stop::Memory);
    };
    let waiting = mem::replace(&mut progress.waiting, Waiting::new(run.alloc));
    progress.counts = put_answers(
        run,
        progress.state.world(),
        &waiting,
        answers,
        progress.counts,
        texts,
        out,
    )?;
    Ok(())
}

/// The answers to the jobs that wait, in the world of a state.
fn answers_at<R: Threads + Sync, G: Gate>(
    run: &Run<'_, R, G>,
    state: &State,
    waiting: &Waiting,
) -> Result<Vec<Answer>, NoMemory>
    requires { All (CanBeAnswered state.now.world.definitions) (jobs_of waiting.now) }
    ensures { IfOk result (λ v. AreAnswered (bounds_of run.now.limits.now) state.now.world (jobs_of waiting.now) v.items) }
{
    let world = state.world();
    phase_answers(run.rt, run.alloc, world, waiting, run.limits, run.gate)
}

/// Writes the lines of the jobs with their answers, each with those behind it, where not the last line alone is written,
/// and keeps each answer's stall right before its lines. The counts with the answers.
fn put_answers<R: Threads + Sync, O: Observer, G: Gate>(
    run: &Run<'_, R, G>,
    world: &World,
    waiting: &Waiting,
    answers: Vec<Answer>,
    start: Counts,
    texts: &Texts,
    out: &mut O,
) -> Result<Counts, Stop>
    requires ready { All (CanBeAnswered world.now.definitions) (jobs_of waiting.now) }
    requires many { length answers.items ≡ length (jobs_of waiting.now) }
    requires room { HasRoomFor (length (jobs_of waiting.now)) start }
    ensures writes { OnOk result (WritesPhase texts.now run.now.last_only (jobs_of waiting.now) answers.items (O.written out.old) (O.written out.new)) }
    ensures keeps { OnOk result (KeepsPhase answers.items (O.stalls out.old) (O.stalls out.new)) }
    ensures counts { IfOk result (λ c. c ≡ counts_after start answers.items) }
    ensures front { OnErr result (WritesPhaseFront texts.now run.now.last_only (jobs_of waiting.now) answers.items (O.written out.old) (O.written out.new)) }
    ensures keeps_front { OnErr result (KeepsPhaseFront answers.items (O.stalls out.old) (O.stalls out.new)) }
    ensures cause { IsCounted (O.faults out.old) (O.faults out.new) result }
{
    let mut counts = start;
    let mut i = 0;
    for answer in answers {
        let job = waiting.at(i);
        counts = counts.with(&answer);
        put_job(run.alloc, job, world, answer, texts, run.last_only, out)?;
        i += 1;
    }
    Ok(counts)
}
