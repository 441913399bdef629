//! What a run goes by from its first form to its last line: workers, memory, limits.

use gl_base::limits::Limits;
use std::alloc::Global;

/// What one run goes by, from its first form to its last line.
#[derive(Drop)]
pub struct Run<'a, R, G> {
    /// What its workers run on.
    pub rt: &'a R,
    /// Where memory comes from.
    pub alloc: Global,
    /// What its decisions and evaluations may take, and how many workers it has.
    pub limits: &'a Limits,
    /// Whether the last line alone is written.
    pub last_only: bool,
    /// Where two jobs or more are answered together by two workers or more, a worker calls `gate.enter` once when it begins a
    /// job, with the job's number among them, from 0.
    pub gate: &'a G,
}
