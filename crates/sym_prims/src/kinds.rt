//! Questions to the arguments' nodes.

ghost use Rattle.std.specs.Prelude.{◌≡◌, true, MatchOption};
ghost use Rattle.gl_logic.specs.declared.prim.Primitive.TheVariants as primitive;
ghost use Rattle.sym_objects.specs.declared.sob.SobNode.TheVariants as kind;
ghost use Rattle.sym_prims.specs.Seeing.{IsNoCons, IsNoTruth, IsSimple, IsOfParts, code_seen, takes_two, is_of_kind, is_integer_node, pairing_of};

use super::nodes::{Branches, Conses, Pairing, Parts};
use bfr_store::Edge;
use gl_logic::Prim;
use sym_objects::SobNode;

/// The choice that a node is.
pub fn choice_of(node: SobNode) -> Option<Branches>
    ensures { MatchOption result (IsSimple node) (λ r. node ≡ kind.Choice r.test r.then r.other) }
{
    match node {
        SobNode::Choice(test, then, other) => Some(Branches { test, then, other }),
        _ => None,
    }
}

/// The parts of two conses whose equality is asked.
pub fn conses_of(prim: Prim, first: SobNode, second: SobNode) -> Option<Conses>
    ensures { MatchOption result (IsOfParts prim first second → ⊥)
        (λ r. (prim ≡ primitive.Equal) × (first ≡ kind.Pair r.first_car r.first_cdr) × (second ≡ kind.Pair r.second_car r.second_cdr)) }
{
    match (prim, first, second) {
        (Prim::Equal, SobNode::Pair(a, d), SobNode::Pair(b, e)) => Some(Conses {
            first_car: a,
            first_cdr: d,
            second_car: b,
            second_cdr: e,
        }),
        _ => None,
    }
}

/// Whether a primitive takes two arguments.
pub fn takes_two(prim: Prim) -> bool
    ensures { result ≡ takes_two prim }
{
    matches!(
        prim,
        Prim::Cons
            | Prim::Equal
            | Prim::BinaryPlus
            | Prim::BinaryTimes
            | Prim::Less
            | Prim::Floor
            | Prim::Mod
            | Prim::Truncate
            | Prim::Rem
            | Prim::Ash
            | Prim::BinaryLogand
            | Prim::BinaryLogior
            | Prim::BinaryLogxor
            | Prim::Logbitp
            | Prim::UnsignedByteP
            | Prim::SignedByteP
    )
}

/// Whether a node is of the kind that a primitive tests.
pub fn is_of_kind(prim: Prim, node: SobNode) -> bool
    ensures { result ≡ is_of_kind prim node }
{
    match prim {
        Prim::Consp => matches!(node, SobNode::Pair(..)),
        Prim::Integerp => matches!(node, SobNode::Integer),
        Prim::Symbolp => matches!(node, SobNode::Symbol(_) | SobNode::Boolean(_)),
        Prim::Stringp => matches!(node, SobNode::Text(_)),
        Prim::Characterp => matches!(node, SobNode::Character(_)),
        _ => false,
    }
}

/// Whether a node is an integer.
pub fn is_integer_node(node: SobNode) -> bool
    ensures { result ≡ is_integer_node node }
{
    matches!(node, SobNode::Integer)
}

/// What decides whether two nodes stand for one object.
pub fn pairing_of(first: SobNode, second: SobNode) -> Pairing
    ensures { result ≡ pairing_of first second }
{
    match (first, second) {
        (SobNode::Integer, SobNode::Integer) => Pairing::Integers,
        (SobNode::Boolean(e), SobNode::Boolean(f)) => Pairing::Booleans(e, f),
        (SobNode::Character(c), SobNode::Character(d)) => Pairing::Always(c == d),
        (SobNode::Symbol(s), SobNode::Symbol(t)) => Pairing::Always(s.number == t.number),
        (SobNode::Text(s), SobNode::Text(t)) => Pairing::Always(s.number == t.number),
        _ => Pairing::Always(false),
    }
}

/// The choice that the second node is, where a primitive takes two arguments.
pub fn second_choice(prim: Prim, node: SobNode) -> Option<Branches>
    ensures { MatchOption result (takes_two prim ≡ true → IsSimple node) (λ r. (takes_two prim ≡ true) × (node ≡ kind.Choice r.test r.then r.other)) }
{
    if takes_two(prim) {
        choice_of(node)
    } else {
        None
    }
}

/// The parts of the cons that a node is.
pub fn cons_of(node: SobNode) -> Option<Parts>
    ensures { MatchOption result (IsNoCons node) (λ r. node ≡ kind.Pair r.car r.cdr) }
{
    match node {
        SobNode::Pair(car, cdr) => Some(Parts { car, cdr }),
        _ => None,
    }
}

/// The edge of the Boolean that a node is.
pub fn truth_of(node: SobNode) -> Option<Edge>
    ensures { MatchOption result (IsNoTruth node) (λ e. node ≡ kind.Boolean e) }
{
    match node {
        SobNode::Boolean(e) => Some(e),
        _ => None,
    }
}

/// The code of the character that a node is, and 0 of any other.
pub fn code_seen(node: SobNode) -> u8
    ensures { result ≡ code_seen node }
{
    match node {
        SobNode::Character(code) => code,
        _ => 0,
    }
}
