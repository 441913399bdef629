//! What is given to a worker at once.

ghost use Rattle.std.specs.Prelude.{◌≡◌, ◌<◌, [], ◌∷◌, ◌++◌, length, slice_get, Some, IfOk, OnOk};
ghost use Rattle.std.specs.List.{flat_map};
ghost use Rattle.event_world.specs.Seen.{event_seen};
ghost use Rattle.gl_book.specs.Phases.{jobs_of, new_job};
ghost use Rattle.gl_book.specs.Tasks.{task_seen, tasks_in, tasks_of as tasks_meant};

use super::waiting::Waiting;
use event_world::Event;
use gl_logic::NoMemory;
use shape_spec::{FnSet, Thm};
use std::alloc::Global;

/// What is given to a worker at once, with the functions whose calls are kept at its place.
#[derive(Drop)]
pub(crate) enum Task<'a> {
    /// An event as a whole.
    Event(&'a Event, &'a FnSet),
    /// A part of a theorem by cases.
    Theorem(&'a Thm, &'a FnSet),
}

/// Tasks in order.
#[derive(Drop)]
pub(crate) struct Tasks<'a> {
    pub(crate) items: Vec<Task<'a>>,
}

impl<'a> Tasks<'a> {
    /// No tasks. Takes no memory.
    fn new(alloc: Global) -> Tasks<'a>
        ensures { tasks_in result ≡ [] }
    {
        Tasks {
            items: Vec::new(alloc),
        }
    }

    /// How many there are.
    pub(crate) fn len(&self) -> u64
        ensures { result ≡ length (tasks_in self.now) }
    {
        self.items.len() as u64
    }

    /// The task at a place, from 0.
    pub(crate) fn at(&self, i: u64) -> &Task<'a>
        requires { i < length (tasks_in self.now) }
        ensures { slice_get (tasks_in self.now) i ≡ Some (task_seen result.now) }
    {
        &self.items[i as usize]
    }

    /// Puts a task last.
    fn push(&mut self, task: Task<'a>) -> Result<(), NoMemory>
        ensures { OnOk result (tasks_in self.new ≡ tasks_in self.old ++ task_seen task.entry ∷ []) }
    {
        self.items.push(task)?;
        Ok(())
    }

    /// Puts the tasks of a job last: the cover and the cases of a theorem by cases, and any other as a whole.
    fn add(&mut self, event: &'a Event, memoized: &'a FnSet) -> Result<(), NoMemory>
        ensures { OnOk result (tasks_in self.new ≡ tasks_in self.old ++ tasks_meant (new_job (event_seen event.now) memoized.now)) }
    {
        let Event::Cases(thm) = event else {
            return self.push(Task::Event(event, memoized));
        };
        self.push(Task::Theorem(&thm.cover, memoized))?;
        for i in 0..thm.cases.len() {
            self.push(Task::Theorem(thm.cases.at(i), memoized))?;
        }
        Ok(())
    }
}

/// The tasks of the jobs that wait, in order.
pub(crate) fn tasks_of<'a>(alloc: Global, waiting: &'a Waiting) -> Result<Tasks<'a>, NoMemory>
    ensures { IfOk result (λ tasks. tasks_in tasks ≡ flat_map tasks_meant (jobs_of waiting.entry.now)) }
{
    let mut tasks = Tasks::new(alloc);
    for i in 0..waiting.len() {
        let job = waiting.at(i);
        tasks.add(&job.event, &job.memoized)?;
    }
    Ok(tasks)
}
