//! What names a symbolic object, and what one is made of.

use bfr_store::Edge;
use gl_logic::TextId;

/// The name of a symbolic object: the number of its node. It means something only in the table that made it. Equal nodes
/// have equal numbers.
#[derive(Clone, Copy, Debug, PartialEq, Eq)]
pub struct Sob {
    /// The number of the node, from 0, in the order of their making.
    pub number: u32,
}

/// What a symbolic object is made of.
#[derive(Clone, Copy, Debug, PartialEq, Eq)]
pub enum SobNode {
    /// A character, by its code.
    Character(u8),
    /// A symbol other than T and NIL, by the number of its text.
    Symbol(TextId),
    /// A string, by the number of its text.
    Text(TextId),
    /// T where the edge is true, and NIL elsewhere. The symbols T and NIL themselves are the two constant edges.
    Boolean(Edge),
    /// An integer, whose bits `Sobs::bits_of` gives.
    Integer,
    /// The cons of two objects.
    Pair(Sob, Sob),
    /// The first object where the edge is true, and the second elsewhere.
    Choice(Edge, Sob, Sob),
}
