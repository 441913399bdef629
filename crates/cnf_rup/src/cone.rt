//! The walk that finds an edge's cone.

ghost use Rattle.std.specs.Prelude.{◌≡◌, ◌≤◌, ◌<◌, max, length, IfOk, OnOk};
ghost use Rattle.aig_store.specs.Inside.{IsOrdered};
ghost use Rattle.aig_store.specs.Nodes.{node_at};
ghost use Rattle.cnf_rup.specs.Cones.{IsCone};
ghost use Rattle.cnf_rup.specs.Searches.{cone_below, cone_with, seen_below, seen_with};

use aig_store::{Aig, AigNode};
use bfr_store::Edge;
use gl_logic::NoMemory;
use std::alloc::Global;

/// Puts a node last, where the walk has not come to it.
fn visit(seen: &mut Vec<bool>, cone: &mut Vec<u32>, number: u32) -> Result<(), NoMemory>
    requires { number < length seen.old.items }
    ensures seen { OnOk result (seen.new.items ≡ seen_with number seen.old.items) }
    ensures cone { OnOk result (cone.new.items ≡ cone_with number seen.old.items cone.old.items) }
{
    if !seen[number as usize] {
        cone.push(number)?;
        seen[number as usize] = true;
    }
    Ok(())
}

/// Comes to the nodes below a node.
fn visit_below(
    aig: &Aig,
    number: u32,
    seen: &mut Vec<bool>,
    cone: &mut Vec<u32>,
) -> Result<(), NoMemory>
    requires live { number < length aig.now.nodes }
    requires small { number ≤ 1000000000 }
    requires within { number < length seen.old.items }
    ensures seen { OnOk result (seen.new.items ≡ seen_below (node_at aig.now.nodes number) seen.old.items) }
    ensures cone { OnOk result (cone.new.items ≡ cone_below (node_at aig.now.nodes number) seen.old.items cone.old.items) }
{
    match aig.node_of(Edge::regular(number)) {
        AigNode::And(x, y) => {
            visit(seen, cone, x.node())?;
            visit(seen, cone, y.node())?;
            Ok(())
        }
        _ => Ok(()),
    }
}

/// The numbers of the nodes of a node's cone, each once, in the order in which a walk in breadth comes to them. The list is
/// the walk's queue as well.
pub fn cone_of(alloc: Global, aig: &Aig, root: u32) -> Result<Vec<u32>, NoMemory>
    requires live { root < length aig.now.nodes }
    requires small { root ≤ 1000000000 }
    requires ordered { IsOrdered aig.now.nodes aig.now.width }
    ensures cone { IfOk result (λ c. IsCone aig.now.nodes root c.items) }
    ensures count { IfOk result (λ c. length c.items ≤ max 1 root) }
{
    let mut seen = vec![in alloc; false; root as usize + 1]?;
    let mut cone = Vec::new(alloc);
    visit(&mut seen, &mut cone, root)?;
    let mut place = 0;
    while place < cone.len() {
        visit_below(aig, cone[place], &mut seen, &mut cone)?;
        place += 1;
    }
    Ok(cone)
}
