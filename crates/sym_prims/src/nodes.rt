//! What is seen of the arguments' nodes.

use bfr_store::Edge;
use sym_objects::Sob;

/// What decides whether two nodes stand for one object.
#[derive(Clone, Copy)]
pub enum Pairing {
    /// Both are integers.
    Integers,
    /// Both are Booleans, by these edges.
    Booleans(Edge, Edge),
    /// They always do, or never.
    Always(bool),
}

/// A choice of two objects by an edge.
#[derive(Clone, Copy)]
pub struct Branches {
    pub test: Edge,
    pub then: Sob,
    pub other: Sob,
}

/// The parts of two conses.
#[derive(Clone, Copy)]
pub struct Conses {
    pub first_car: Sob,
    pub first_cdr: Sob,
    pub second_car: Sob,
    pub second_cdr: Sob,
}

/// The parts of a cons.
#[derive(Clone, Copy)]
pub struct Parts {
    pub car: Sob,
    pub cdr: Sob,
}
