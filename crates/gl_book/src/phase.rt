//! The answers to the jobs of a phase, by any number of workers.

ghost use Rattle.std.specs.Prelude.{◌≡◌, ◌<◌, ◌≤◌, ℕ, All, IfOk, length, vec_len, slice_index_or};
ghost use Rattle.gl_decide.specs.Bounds.{bounds_of};
ghost use Rattle.gl_book.specs.Phases.{AreAnswered, CanBeAnswered, IsAnsweredBy, IsPieceAnswered, IsWithin, Joins, jobs_of};
ghost use Rattle.gl_book.specs.Tasks.{task_seen, tasks_in};
ghost use Rattle.gl_book.specs.declared.piece.Piece.{Piece as PieceSeen};

use super::answer::{Answer, answer_of, theorem_answer};
use super::gather::gather;
use super::piece::Piece;
use super::pieces::pieces_of;
use super::task::{Task, Tasks, tasks_of};
use super::waiting::Waiting;
use gl_base::limits::Limits;
use gl_decide::Gate;
use gl_logic::{NoMemory, World};
use std::alloc::{AllocError, Global};
use std::thread::{self, Threads};

/// An answer for each job of a phase, in the world at its end.
///
/// The jobs are done as tasks: a theorem by cases gives its cover and each of its cases, and any other job is one. One
/// task has all workers for its scan. Of two or more each has one worker for itself, and they are dealt out in pieces, one
/// to a worker, which calls `gate.enter` with the task's number in the phase, from 0, when it begins a task.
///
/// # Errors
///
/// `NoMemory` where memory was refused outside a task.
pub(crate) fn phase_answers<R: Threads + Sync, G: Gate>(
    rt: &R,
    alloc: Global,
    world: &World,
    waiting: &Waiting,
    limits: &Limits,
    gate: &G,
) -> Result<Vec<Answer>, NoMemory>
    requires { All (CanBeAnswered world.now.definitions) (jobs_of waiting.now) }
    ensures { IfOk result (λ v. AreAnswered (bounds_of limits.now) world.now (jobs_of waiting.now) v.items) }
{
    let tasks = tasks_of(alloc, waiting)?;
    let answers = tasks_answers(rt, alloc, world, &tasks, limits, gate)?;
    gather(alloc, waiting, answers)
}

/// An answer for each task.
fn tasks_answers<R: Threads + Sync, G: Gate>(
    rt: &R,
    alloc: Global,
    world: &World,
    tasks: &Tasks<'_>,
    limits: &Limits,
    gate: &G,
) -> Result<Vec<Answer>, NoMemory>
    requires { All (CanBeAnswered world.now.definitions) (tasks_in tasks.now) }
    ensures { IfOk result (λ v. AreAnswered (bounds_of limits.now) world.now (tasks_in tasks.now) v.items) }
{
    match tasks.len() {
        0 => Ok(Vec::new(alloc)),
        1 => one_answer(rt, alloc, world, tasks, limits),
        _ => many_answers(rt, alloc, world, tasks, limits, gate),
    }
}

/// The answer to a task.
fn task_answer<R: Threads + Sync>(
    rt: &R,
    alloc: Global,
    world: &World,
    task: &Task<'_>,
    limits: &Limits,
) -> Answer
    requires { CanBeAnswered world.now.definitions (task_seen task.now) }
    ensures { IsAnsweredBy (bounds_of limits.now) world.now (task_seen task.now) result }
{
    match task {
        Task::Event(event, memoized) => answer_of(rt, alloc, world, memoized, event, limits),
        Task::Theorem(thm, _) => theorem_answer(rt, alloc, world, thm, limits),
    }
}

/// The answer to the only task.
fn one_answer<R: Threads + Sync>(
    rt: &R,
    alloc: Global,
    world: &World,
    tasks: &Tasks<'_>,
    limits: &Limits,
) -> Result<Vec<Answer>, NoMemory>
    requires one { length (tasks_in tasks.now) ≡ 1 }
    requires answerable { All (CanBeAnswered world.now.definitions) (tasks_in tasks.now) }
    ensures { IfOk result (λ v. AreAnswered (bounds_of limits.now) world.now (tasks_in tasks.now) v.items) }
{
    let mut answers = Vec::new(alloc);
    answers.push(task_answer(rt, alloc, world, tasks.at(0), limits))?;
    Ok(answers)
}

/// The answers to two tasks or more, by as many workers as the limits say.
fn many_answers<R: Threads + Sync, G: Gate>(
    rt: &R,
    alloc: Global,
    world: &World,
    tasks: &Tasks<'_>,
    limits: &Limits,
    gate: &G,
) -> Result<Vec<Answer>, NoMemory>
    requires some { 1 ≤ length (tasks_in tasks.now) }
    requires answerable { All (CanBeAnswered world.now.definitions) (tasks_in tasks.now) }
    ensures { IfOk result (λ v. AreAnswered (bounds_of limits.now) world.now (tasks_in tasks.now) v.items) }
{
    let pieces = pieces_of(alloc, tasks.len(), u64::from(limits.workers))?;
    let parts = answers_by_piece(rt, alloc, world, tasks, &alone(limits), gate, pieces)?;
    joined(alloc, parts)
}

/// Limits with one worker.
fn alone(limits: &Limits) -> Limits
    ensures same { bounds_of result ≡ bounds_of limits.now }
    ensures one { result.workers ≡ 1 }
{
    Limits {
        steps: limits.steps,
        cells: limits.cells,
        nodes: limits.nodes,
        clauses: limits.clauses,
        enum_bits: limits.enum_bits,
        workers: 1,
    }
}

/// The answers to the tasks of each piece, each by a worker.
fn answers_by_piece<R: Threads + Sync, G: Gate>(
    rt: &R,
    alloc: Global,
    world: &World,
    tasks: &Tasks<'_>,
    limits: &Limits,
    gate: &G,
    pieces: Vec<Piece>,
) -> Result<Vec<Result<Vec<Answer>, NoMemory>>, AllocError>
    requires answerable { All (CanBeAnswered world.now.definitions) (tasks_in tasks.now) }
    requires within { All (IsWithin (length (tasks_in tasks.now))) pieces.items }
    ensures count { IfOk result (λ v. vec_len v ≡ vec_len pieces) }
    ensures each { IfOk result (λ v. (i : ℕ) (p : PieceSeen) (a : _) → i < length pieces.items
        → IsPieceAnswered (bounds_of limits.now) world.now (tasks_in tasks.now) (slice_index_or pieces.items i p) (slice_index_or v.items i a)) }
{
    let each = |piece: Piece| -> Result<Vec<Answer>, NoMemory>
        requires { All (CanBeAnswered world.now.definitions) (tasks_in tasks.now) × IsWithin (length (tasks_in tasks.now)) piece }
        ensures { IsPieceAnswered (bounds_of limits.entry.now) world.entry.now (tasks_in tasks.entry.now) piece result }
    { piece_answers(rt, alloc, world, tasks, limits, gate, piece) };
    thread::map_vec(rt, pieces, &each)
}

/// The answers to the tasks of a piece, in order.
fn piece_answers<R: Threads + Sync, G: Gate>(
    rt: &R,
    alloc: Global,
    world: &World,
    tasks: &Tasks<'_>,
    limits: &Limits,
    gate: &G,
    piece: Piece,
) -> Result<Vec<Answer>, NoMemory>
    requires answerable { All (CanBeAnswered world.now.definitions) (tasks_in tasks.now) }
    requires within { IsWithin (length (tasks_in tasks.now)) piece }
    ensures { IsPieceAnswered (bounds_of limits.now) world.now (tasks_in tasks.now) piece result }
{
    let mut answers = Vec::new(alloc);
    for number in piece.first..piece.end {
        gate.enter(number);
        let answer = task_answer(rt, alloc, world, tasks.at(number), limits);
        answers.push(answer)?;
    }
    Ok(answers)
}

/// The answers of all pieces, one behind the other.
fn joined(alloc: Global, parts: Vec<Result<Vec<Answer>, NoMemory>>) -> Result<Vec<Answer>, NoMemory>
    ensures { IfOk result (λ v. Joins parts.items v.items) }
{
    let mut answers = Vec::new(alloc);
    for part in parts {
        let mut more = part?;
        answers.append(&mut more)?;
    }
    Ok(answers)
}
