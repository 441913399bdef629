//! Assignments that are tried on the graph.

ghost use Rattle.std.specs.Prelude.{◌≡◌, ◌≢◌, true, false, length, IfOk};
ghost use Rattle.gl_logic.specs.Assignments.{value_at};
ghost use Rattle.aig_store.specs.Nodes.{IsLive, truth_of};

use super::literal::Literal;
use super::search::Search;
use super::trail::Truth;
use aig_store::{Aig, AigNode};
use bfr_store::Edge;
use gl_logic::{Assignment, NoMemory};
use std::alloc::Global;

/// The graph's variable that a variable of the book stands for, where it is one.
fn variable_of(aig: &Aig, name: i32) -> Option<u32> {
    let node = name.unsigned_abs().wrapping_sub(1);
    if node > 1_000_000_000 {
        return None;
    }
    let edge = Edge::regular(node);
    if !aig.is_live(edge) {
        return None;
    }
    match aig.node_of(edge) {
        AigNode::Var(k) => Some(k),
        _ => None,
    }
}

/// Gives the graph's variables the values that the search has found.
fn fill(aig: &Aig, search: &Search, candidate: &mut Assignment)
    requires { length candidate.old ≡ aig.now.width }
    ensures { length candidate.new ≡ length candidate.old }
{
    let width = aig.width();
    for variable in 0..search.variables {
        if let Some(k) = variable_of(aig, search.names.name(variable)) {
            if k < width {
                let truth = search.trail.truth(Literal::of(variable, false));
                candidate.set(k, truth == Truth::True);
            }
        }
    }
}

/// Tries an assignment on the graph. Where it makes the edge true it is handed out.
fn is_model(aig: &mut Aig, e: Edge, candidate: Assignment, out: &mut Assignment) -> bool
    requires live { IsLive aig.old e }
    requires width { length candidate ≡ aig.old.width }
    ensures graph { aig.new ≡ aig.old }
    ensures model { result ≡ true → truth_of aig.old.nodes e (value_at out.new) ≡ true }
    ensures bits { result ≡ true → length out.new ≡ aig.old.width }
    ensures untouched { result ≡ false → out.new ≡ out.old }
{
    if aig.value(e, &candidate) {
        *out = candidate;
        true
    } else {
        false
    }
}

/// The assignment that gives all variables this value.
fn constant_assignment(alloc: Global, width: u32, value: bool) -> Result<Assignment, NoMemory>
    ensures { IfOk result (λ a. length a ≡ width) }
{
    let mut candidate = Assignment::new(alloc, width)?;
    if value {
        for k in 0..width {
            candidate.set(k, true);
        }
    }
    Ok(candidate)
}

/// The assignment that was found last, false where it is silent.
fn last_assignment(alloc: Global, width: u32, last: &[bool]) -> Result<Assignment, NoMemory>
    ensures { IfOk result (λ a. length a ≡ width) }
{
    let mut candidate = Assignment::new(alloc, width)?;
    for k in 0..width {
        if let Some(true) = last.get(k as usize) {
            candidate.set(k, true);
        }
    }
    Ok(candidate)
}

/// Tries what costs no search: the assignment that was found last, the one that is all false, and the one that is all true.
pub fn try_known(
    alloc: Global,
    aig: &mut Aig,
    e: Edge,
    last: &[bool],
    out: &mut Assignment,
) -> Result<bool, NoMemory>
    requires live { IsLive aig.old e }
    ensures graph { aig.new ≡ aig.old }
    ensures model { result ≡ Ok true → truth_of aig.old.nodes e (value_at out.new) ≡ true }
    ensures bits { result ≡ Ok true → length out.new ≡ aig.old.width }
    ensures untouched { result ≢ Ok true → out.new ≡ out.old }
{
    let width = aig.width();
    let found = last_assignment(alloc, width, last)?;
    if is_model(aig, e, found, out) {
        return Ok(true);
    }
    let low = constant_assignment(alloc, width, false)?;
    if is_model(aig, e, low, out) {
        return Ok(true);
    }
    let high = constant_assignment(alloc, width, true)?;
    Ok(is_model(aig, e, high, out))
}

/// Tries the assignment that the search has come to.
pub fn try_found(
    alloc: Global,
    aig: &mut Aig,
    e: Edge,
    search: &Search,
    out: &mut Assignment,
) -> Result<bool, NoMemory>
    requires live { IsLive aig.old e }
    ensures graph { aig.new ≡ aig.old }
    ensures model { result ≡ Ok true → truth_of aig.old.nodes e (value_at out.new) ≡ true }
    ensures bits { result ≡ Ok true → length out.new ≡ aig.old.width }
    ensures untouched { result ≢ Ok true → out.new ≡ out.old }
{
    let width = aig.width();
    let mut candidate = Assignment::new(alloc, width)?;
    fill(aig, search, &mut candidate);
    Ok(is_model(aig, e, candidate, out))
}
