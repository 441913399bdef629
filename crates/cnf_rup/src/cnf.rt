//! The clauses of an edge's cone.

ghost use Rattle.std.specs.Prelude.{◌≡◌, ◌≤◌, ◌<◌, ◌+◌, ◌*◌, ◌↔◌, ◌++◌, ◌∷◌, [], ℕ, ℤ, List, Bool, true, All, length, get_or, neg_ℤ, IfOk, OnOk};
ghost use Rattle.bfr_store.specs.Edges.{node_of};
ghost use Rattle.aig_store.specs.Nodes.{IsLive, count_of};
ghost use Rattle.cnf_rup.specs.Literals.{IsLiteral, IsUpTo};
ghost use Rattle.cnf_rup.specs.Books.{clauses_of};
ghost use Rattle.cnf_rup.specs.Cnfs.{IsCnfOf, IsTrueWhereSatisfied, entries_of_cone, entries_of_gate, entries_of_node, literal_of};

use super::book::ClauseBook;
use super::clause::{Clause, Entry, Hints};
use super::cone::cone_of;
use aig_store::{Aig, AigNode};
use bfr_store::Edge;
use gl_logic::NoMemory;
use std::alloc::Global;

/// The literal of an edge: the variable of its node, which is its number and one more, or the complement.
fn literal_of(e: Edge) -> i32
    requires { node_of e ≤ 1000000000 }
    ensures literal { result ≡ literal_of e }
    ensures proper { IsLiteral result }
{
    let variable = (e.node() + 1) as i32;
    if e.is_complemented() {
        -variable
    } else {
        variable
    }
}

/// Puts a clause last, without hints.
fn push_clause(alloc: Global, entries: &mut Vec<Entry>, literals: &[i32]) -> Result<(), NoMemory>
    ensures { OnOk result (entries.new.items ≡ entries.old.items ++ record { clause = literals.now; hints = [] } ∷ []) }
{
    let mut clause = Clause::new(alloc);
    for literal in literals {
        clause.push(*literal)?;
    }
    entries.push(Entry {
        clause,
        hints: Hints::new(alloc),
    })?;
    Ok(())
}

/// The complement of a literal.
fn complement(literal: i32) -> i32
    requires { IsLiteral literal }
    ensures { result ≡ neg_ℤ literal }
{
    -literal
}

/// Puts the clauses of a conjunction last, by the literals of its node and of its edges.
fn push_gate(
    alloc: Global,
    entries: &mut Vec<Entry>,
    g: i32,
    x: i32,
    y: i32,
) -> Result<(), NoMemory>
    requires g { IsLiteral g }
    requires x { IsLiteral x }
    requires y { IsLiteral y }
    ensures { OnOk result (entries.new.items ≡ entries.old.items ++ entries_of_gate g x y) }
{
    let not_g = complement(g);
    let not_x = complement(x);
    let not_y = complement(y);
    push_clause(alloc, entries, &[not_g, x])?;
    push_clause(alloc, entries, &[not_g, y])?;
    push_clause(alloc, entries, &[g, not_x, not_y])?;
    Ok(())
}

/// Puts the clauses of a node last.
fn push_node(
    alloc: Global,
    entries: &mut Vec<Entry>,
    number: u32,
    node: AigNode,
) -> Result<(), NoMemory>
    requires within { number ≤ 1000000000 }
    requires below { (x y : Edge) → node ≡ AigNode.And x y → (node_of x < number) × (node_of y < number) }
    ensures { OnOk result (entries.new.items ≡ entries.old.items ++ entries_of_node number node) }
{
    let variable = (number + 1) as i32;
    match node {
        AigNode::Constant => push_clause(alloc, entries, &[variable])?,
        AigNode::Var(_) => {}
        AigNode::And(x, y) => {
            let first = literal_of(x);
            let second = literal_of(y);
            push_gate(alloc, entries, variable, first, second)?;
        }
    }
    Ok(())
}

/// Puts the clauses of the nodes of a cone last.
fn push_cone(
    alloc: Global,
    entries: &mut Vec<Entry>,
    aig: &Aig,
    cone: &[u32],
) -> Result<(), NoMemory>
    requires live { (k d : ℕ) → k < length cone.now → get_or cone.now k d < length aig.now.nodes }
    requires small { (k d : ℕ) → k < length cone.now → get_or cone.now k d ≤ 1000000000 }
    ensures { OnOk result (entries.new.items ≡ entries.old.items ++ entries_of_cone aig.now.nodes cone.now) }
{
    for number in cone {
        let node = aig.node_of(Edge::regular(*number));
        push_node(alloc, entries, *number, node)?;
    }
    Ok(())
}

/// The clauses of an edge's cone and the unit clause of the edge, by Tseitin's translation: the node of number i is variable
/// i + 1. Each node g of the cone that is the conjunction of a and b gives the clauses (-g a), (-g b) and (g -a -b), the
/// constant gives its unit clause, and the unit clause of the edge is the last. So an assignment of the graph's variables
/// makes the edge true exactly where it extends to one that satisfies the clauses.
///
/// The walk goes to each node of the cone once, and no call nests. There is a mark for each node up to the edge's own.
pub fn cnf_of(alloc: Global, aig: &Aig, e: Edge) -> Result<ClauseBook, NoMemory>
    requires { IsLive aig.now e }
    ensures first { IfOk result (λ b. b.first ≡ length b.entries) }
    ensures clauses { IfOk result (λ b. IsCnfOf aig.now.nodes e (clauses_of b.entries)) }
    ensures few { IfOk result (λ b. b.first ≤ 3 * count_of aig.now + 2) }
    ensures variables { IfOk result (λ b. All (IsUpTo (length aig.now.nodes)) (clauses_of b.entries)) }
    ensures extends { IfOk result (λ b. IsTrueWhereSatisfied aig.now.nodes e (clauses_of b.entries)) }
{
    // Read for what they tell of the nodes: they are few, and in order.
    let _limit = aig.limit();
    let _width = aig.width();
    let root = aig.number_of(e);
    let cone = cone_of(alloc, aig, root)?;
    let mut entries = Vec::new(alloc);
    push_cone(alloc, &mut entries, aig, &cone)?;
    push_clause(alloc, &mut entries, &[literal_of(e)])?;
    ClauseBook::of(alloc, entries, root + 1)
}
