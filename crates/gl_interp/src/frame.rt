//! What is left to do.

use super::envs::EnvId;
use bfr_store::Edge;
use gl_logic::{Assignment, FnId, Names, Prim, Term};
use sym_objects::Sob;

/// A path: an edge, and an assignment that makes it true where one is known. The edge of a path that was found to have none is
/// that of the constant false.
#[derive(Drop)]
pub struct Path {
    pub edge: Edge,
    pub found: Option<Assignment>,
}

/// What is done with arguments.
#[derive(Clone, Copy)]
pub enum Work<'a> {
    Prim(Prim),
    Call(FnId),
    Let(&'a Names, &'a Term),
}

/// What is left to do with the object that comes.
#[derive(Drop)]
pub enum Frame<'a> {
    /// It is a test's. The branches, their environment and clock.
    Test(&'a Term, &'a Term, EnvId, u32),
    /// It is the first branch's. The test, the other branch, its environment and clock, the path's edge to the two and the
    /// path to the other one.
    Other(Edge, &'a Term, EnvId, u32, Edge, Path),
    /// It is the other branch's. The test, the first branch's object and the path to the two.
    Join(Edge, Sob, Path),
    /// It is an argument's. The arguments before it, all terms, their environment and clock.
    Arguments(Work<'a>, Vec<Sob>, &'a [Term], EnvId, u32),
}

/// What is to be done next.
#[derive(Drop)]
pub enum Focus<'a> {
    Visit(&'a Term, EnvId, u32),
    /// The arguments that are there, and all terms.
    Next(Work<'a>, Vec<Sob>, &'a [Term], EnvId, u32),
    /// All arguments.
    Run(Work<'a>, Vec<Sob>, EnvId, u32),
    Give(Sob),
}
