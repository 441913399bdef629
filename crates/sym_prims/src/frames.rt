//! What is left to do of a primitive on choices and conses.

use bfr_store::Edge;
use sym_objects::Sob;

/// A primitive's application to two objects under a path. A primitive of one argument looks at the first alone.
#[derive(Clone, Copy)]
pub struct Task {
    pub first: Sob,
    pub second: Sob,
    pub path: Edge,
}

/// How two answers make one.
#[derive(Clone, Copy)]
pub enum Joining {
    /// The first where the edge is true, and the second elsewhere.
    Choice(Edge),
    /// T where neither is NIL.
    Both,
}

/// What is left to do with the answer that comes.
#[derive(Clone, Copy)]
pub enum Frame {
    /// It is a first answer. The second is that of this application.
    Second(Joining, Task),
    /// It is the second answer beside this first one.
    Last(Joining, Sob),
    /// It is the answer of this application.
    Keep(Task),
}

/// What is done next.
#[derive(Clone, Copy)]
pub enum Focus {
    /// An application is looked at.
    Apply(Task),
    /// An answer is handed to the frame on top.
    Give(Sob),
}
