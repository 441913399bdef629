//! The jobs of a phase, in the order of the book.

ghost use Rattle.std.specs.Prelude.{◌≡◌, ◌<◌, [], ◌∷◌, ◌++◌, length, slice_get, Some, IfOk, OnOk, OnErr};
ghost use Rattle.event_world.specs.Seen.{event_seen};
ghost use Rattle.gl_book.specs.Lines.{event_lines, mark_line};
ghost use Rattle.gl_book.specs.Phases.{job_seen, jobs_of, new_job, IsFollowed};

use super::answer::Answer;
use super::job::Job;
use super::line_list::Lines;
use super::lines::add_event_lines;
use super::marks::add_mark;
use super::origin::{Origin, Spot};
use book_shelf::Mark;
use book_state::copy_of;
use event_world::Event;
use gl_logic::{NoMemory, Texts};
use shape_spec::FnSet;
use std::alloc::Global;

/// The jobs that wait for the end of their phase, in the order of the book.
#[derive(Drop)]
pub struct Waiting {
    pub jobs: Vec<Job>,
}

impl Waiting {
    /// No jobs. Takes no memory.
    pub fn new(alloc: Global) -> Waiting
        ensures { jobs_of result ≡ [] }
    {
        Waiting {
            jobs: Vec::new(alloc),
        }
    }

    /// How many jobs wait.
    pub fn len(&self) -> u64
        ensures { result ≡ length (jobs_of self.now) }
    {
        self.jobs.len() as u64
    }

    /// The job at a place, from 0.
    pub fn at(&self, i: u64) -> &Job
        requires { i < length (jobs_of self.now) }
        ensures { slice_get (jobs_of self.now) i ≡ Some (job_seen result.now) }
    {
        &self.jobs[i as usize]
    }

    /// Puts an event last, with its spot and the functions whose calls are kept at its place. It is lost where memory runs out.
    pub fn push(
        &mut self,
        alloc: Global,
        spot: Spot,
        event: Event,
        memoized: &FnSet,
    ) -> Result<(), NoMemory>
        ensures ok { OnOk result (jobs_of self.new ≡ jobs_of self.old ++ new_job (event_seen event) memoized.now ∷ []) }
        ensures err { OnErr result (jobs_of self.new ≡ jobs_of self.old) }
    {
        let Ok(memoized) = copy_of(alloc, memoized) else {
            drop(event);
            return Err(NoMemory);
        };
        self.put_last(Job {
            spot,
            event,
            memoized,
            behind: Lines::new(alloc),
        })
    }

    /// Puts the lines of an event with its answer behind the last job. The job is lost where memory runs out.
    pub fn follow(
        &mut self,
        alloc: Global,
        spot: Spot,
        event: &Event,
        answer: &Answer,
        texts: &Texts,
    ) -> Result<(), NoMemory>
        ensures { OnOk result (IsFollowed (jobs_of self.old) (event_lines texts.now (event_seen event.now) answer.now) (jobs_of self.new)) }
    {
        let Some(mut job) = self.jobs.pop() else {
            return Ok(());
        };
        job.behind.turn_to(Origin::Event(spot));
        match add_event_lines(alloc, event, answer, texts, &mut job.behind) {
            Ok(()) => self.put_last(job),
            Err(fault) => {
                drop(job);
                Err(fault)
            }
        }
    }

    /// Puts the line of a mark behind the last job. The job is lost where memory runs out.
    pub fn follow_mark(
        &mut self,
        alloc: Global,
        number: u64,
        mark: Mark,
        texts: &Texts,
    ) -> Result<(), NoMemory>
        ensures { OnOk result (IsFollowed (jobs_of self.old) (mark_line texts.now mark ∷ []) (jobs_of self.new)) }
    {
        let Some(mut job) = self.jobs.pop() else {
            return Ok(());
        };
        job.behind.turn_to(Origin::Mark(number));
        match add_mark(alloc, mark, texts, &mut job.behind) {
            Ok(()) => self.put_last(job),
            Err(fault) => {
                drop(job);
                Err(fault)
            }
        }
    }

    /// Puts a job last. It is lost where memory runs out.
    fn put_last(&mut self, job: Job) -> Result<(), NoMemory>
        ensures ok { OnOk result (jobs_of self.new ≡ jobs_of self.old ++ job_seen job ∷ []) }
        ensures err { OnErr result (jobs_of self.new ≡ jobs_of self.old) }
    {
        self.jobs.push(job)?;
        Ok(())
    }
}
