//! The nodes of a table.

ghost use Rattle.std.specs.Prelude.{◌≡◌, ◌↔◌, IsTrue};
ghost use Rattle.sym_objects.specs.Nodes.{kind_of};

use super::sob::{Sob, SobNode};
use bfr_store::Edge;
use gl_logic::TextId;

/// A node. An integer has one for each bit, of which the last is its sign, so that integers share their higher bits.
#[derive(Clone, Copy, Debug, PartialEq, Eq)]
pub enum Node {
    Character(u8),
    Symbol(TextId),
    Text(TextId),
    Boolean(Edge),
    /// The integer -1 where the edge is true, and 0 elsewhere.
    Sign(Edge),
    /// Twice the integer of a node, and one more where the edge is true.
    Bit(Edge, Sob),
    Pair(Sob, Sob),
    Choice(Edge, Sob, Sob),
}

impl Node {
    /// Whether the two are one.
    pub fn is(self, other: Node) -> bool
        ensures { IsTrue result ↔ (self ≡ other) }
    {
        self == other
    }

    /// What a caller sees of the node.
    pub fn kind(self) -> SobNode
        ensures { result ≡ kind_of self }
    {
        match self {
            Node::Character(code) => SobNode::Character(code),
            Node::Symbol(t) => SobNode::Symbol(t),
            Node::Text(t) => SobNode::Text(t),
            Node::Boolean(e) => SobNode::Boolean(e),
            Node::Sign(_) => SobNode::Integer,
            Node::Bit(..) => SobNode::Integer,
            Node::Pair(a, d) => SobNode::Pair(a, d),
            Node::Choice(e, a, b) => SobNode::Choice(e, a, b),
        }
    }
}
