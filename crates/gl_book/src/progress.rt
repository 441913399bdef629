//! How far a walk has come.

use super::counts::Counts;
use super::waiting::Waiting;
use book_state::State;

/// The state that a book's forms so far have made, what is counted of their answers, and the jobs that wait for theirs.
#[derive(Drop)]
pub struct Progress {
    pub state: State,
    pub counts: Counts,
    pub waiting: Waiting,
}
