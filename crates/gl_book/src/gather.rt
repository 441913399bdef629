//! The answers to jobs, from those to their tasks.

ghost use Rattle.std.specs.Prelude.{◌≡◌, ◌≤◌, IfOk, OnOk, All, length};
ghost use Rattle.gl_book.specs.Phases.{job_seen, jobs_of};
ghost use Rattle.gl_book.specs.Tasks.{Gathers, HasFewParts, TakesAnswer, TakesVerdict, TakesVerdicts};

use super::answer::Answer;
use super::cases::whole_of;
use super::job::Job;
use super::waiting::Waiting;
use event_world::Event;
use gl_cases::ParamThm;
use gl_decide::Verdict;
use gl_logic::NoMemory;
use std::alloc::Global;
use std::collections::VecDeque;

/// The answer to each job, from the answers to the tasks of all, in order. Those to the parts of a theorem by cases come to
/// one, and any other is its job's own.
pub(crate) fn gather(
    alloc: Global,
    waiting: &Waiting,
    answers: Vec<Answer>,
) -> Result<Vec<Answer>, NoMemory>
    requires { All HasFewParts (jobs_of waiting.now) }
    ensures { IfOk result (λ v. Gathers (jobs_of waiting.now) answers.items v.items) }
{
    let mut given = VecDeque::from(answers);
    let mut gathered = Vec::new(alloc);
    for i in 0..waiting.len() {
        gathered.push(next_answer(alloc, waiting.at(i), &mut given)?)?;
    }
    Ok(gathered)
}

/// The answer to a job, from those to its tasks, which are the next.
fn next_answer(alloc: Global, job: &Job, given: &mut VecDeque<Answer>) -> Result<Answer, NoMemory>
    requires { HasFewParts (job_seen job.now) }
    ensures { IfOk result (λ a. TakesAnswer (job_seen job.now) given.old.items a given.new.items) }
{
    if let Event::Cases(thm) = &job.event {
        let cover = next_verdict(given);
        return match next_verdicts(alloc, thm.cases.len(), given) {
            Ok(cases) => Ok(Answer::ByCases(whole_of(alloc, cover, cases)?)),
            Err(fault) => {
                drop(cover);
                Err(fault)
            }
        };
    }
    // each task has an answer
    given.pop_front().ok_or(NoMemory)
}

/// The verdicts on the next so many theorems.
fn next_verdicts(
    alloc: Global,
    count: u64,
    given: &mut VecDeque<Answer>,
) -> Result<Vec<Verdict>, NoMemory>
    ensures verdicts { IfOk result (λ v. TakesVerdicts count given.old.items v.items given.new.items) }
    ensures many { IfOk result (λ v. length v.items ≡ count) }
{
    let mut verdicts = Vec::new(alloc);
    for _ in 0..count {
        verdicts.push(next_verdict(given))?;
    }
    Ok(verdicts)
}

/// The verdict on the next theorem. A theorem's answer is one.
fn next_verdict(given: &mut VecDeque<Answer>) -> Verdict
    ensures { TakesVerdict given.old.items result given.new.items }
{
    match given.pop_front() {
        Some(Answer::Decided(verdict)) => verdict,
        other => {
            drop(other);
            Verdict::Memory
        }
    }
}
