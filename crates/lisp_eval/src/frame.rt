//! The states of an evaluation.

use gl_logic::{FnId, Names, Prim, Term, TextId};
use hons_arena::Id;
use memo_tables::MemoCall;
use smallvec::SmallVec;
use std::rc::Rc;

/// How many values a frame holds in places of its own. A primitive has no more arguments, so it takes no memory for them.
pub const PLACES: usize = 2;

/// A variable with the id of its value.
#[derive(Clone, Copy)]
pub struct Binding {
    pub name: TextId,
    pub value: Id,
}

/// What is done with the values of some terms.
#[derive(Drop)]
pub enum Work<'a> {
    /// The value of a primitive.
    Prim(Prim),
    /// The value of a definition's call.
    Call(FnId),
    /// The value of a body, with the names bound to the values.
    Let(&'a Names, &'a Term),
}

/// What waits for a value.
#[derive(Drop)]
pub enum Frame<'a> {
    /// The parts of an `if` whose test is being run, and their environment.
    Branch(&'a Term, &'a Term, Rc<Vec<Binding>>),
    /// The values so far, the terms to come, and their environment.
    Arguments(Work<'a>, SmallVec<Id, PLACES>, &'a [Term], Rc<Vec<Binding>>),
    /// A memoized call whose body is being run.
    Keep(MemoCall),
}

/// What is done next.
#[derive(Drop)]
pub enum Focus<'a> {
    /// A term is visited, in an environment.
    Visit(&'a Term, Rc<Vec<Binding>>),
    /// All values are there, and the environment of their terms.
    Apply(Work<'a>, SmallVec<Id, PLACES>, Rc<Vec<Binding>>),
    /// A value is there for the last frame.
    Give(Id),
}
