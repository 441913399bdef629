//! The walk that finds what an edge says under an assignment. It goes to each node of the edge's cone once.

ghost use Rattle.std.specs.Prelude.{◌≡◌, ◌≢◌, ◌≤◌, ◌<◌, ◌^◌, ℕ, length, get_or, vec_capacity, IfSome, IfNone};
ghost use Rattle.bfr_store.specs.Edges.{node_of, is_flipped, xor};
ghost use Rattle.gl_logic.specs.Assignments.{value_at};
ghost use Rattle.aig_store.specs.Inside.{AreMarkedBy, IsOrdered, call_at, marked_value};
ghost use Rattle.aig_store.specs.Walks.{AreRight, IsNext, IsWalk, bottom_of, value_of, work};

use super::mark::Mark;
use super::node::AigNode;
use bfr_store::Edge;
use gl_logic::Assignment;

/// What a walk does at a node.
#[derive(Clone, Copy)]
pub enum Step {
    /// All that the node stands on is known, and the node says this.
    Value(bool),
    /// This node is to be known first.
    Below(u32),
}

/// The number of the next call, which no mark has yet. Where the numbers have run out the marks are cleared.
pub fn next_call(marks: &mut Vec<Mark>, calls: u32) -> u32
    requires { AreMarkedBy calls marks.old.items }
    ensures fresh { (i : ℕ) → i < length marks.new.items → call_at marks.new.items i < result }
    ensures len { length marks.new.items ≡ length marks.old.items }
    ensures capacity { vec_capacity marks.old ≤ vec_capacity marks.new }
{
    if calls < u32::MAX {
        return calls + 1;
    }
    for place in 0..marks.len() {
        marks[place] = Mark::blank();
    }
    1
}

/// What an edge says, where this call has been to its node.
fn known(marks: &[Mark], call: u32, e: Edge) -> Option<bool>
    requires { node_of e < length marks.now }
    ensures some { IfSome result (λ b. (call_at marks.now (node_of e) ≡ call) × (b ≡ xor (is_flipped e) (marked_value marks.now (node_of e)))) }
    ensures none { IfNone result (call_at marks.now (node_of e) ≢ call) }
{
    let mark = marks[e.node() as usize];
    if mark.call != call {
        return None;
    }
    Some(if e.is_complemented() {
        !mark.value
    } else {
        mark.value
    })
}

/// What is to be done at a node.
fn next_step(nodes: &[AigNode], marks: &[Mark], call: u32, a: &Assignment, number: u32) -> Step
    requires ordered { IsOrdered nodes.now (length a.now) }
    requires one_each { length marks.now ≡ length nodes.now }
    requires right { AreRight nodes.now (value_at a.now) call marks.now }
    requires within { number < length nodes.now }
    ensures { IsNext nodes.now (value_at a.now) call marks.now number result }
{
    let node = nodes[number as usize];
    match node {
        AigNode::Constant => Step::Value(true),
        AigNode::Var(k) => Step::Value(a.get(k)),
        AigNode::And(x, y) => match known(marks, call, x) {
            None => Step::Below(x.node()),
            Some(false) => Step::Value(false),
            Some(true) => match known(marks, call, y) {
                None => Step::Below(y.node()),
                Some(value) => Step::Value(value),
            },
        },
    }
}

/// One step, at the node on top of the stack.
fn advance(
    nodes: &[AigNode],
    marks: &mut Vec<Mark>,
    stack: &mut Vec<u32>,
    call: u32,
    a: &Assignment,
)
    requires ordered { IsOrdered nodes.now (length a.now) }
    requires small { length nodes.now < 2 ^ 31 }
    requires some { 0 < length stack.old.items }
    requires walk { IsWalk nodes.now (value_at a.now) call (bottom_of stack.old.items) marks.old.items stack.old.items }
    requires room { length nodes.now ≤ vec_capacity stack.old }
    ensures walk { IsWalk nodes.now (value_at a.now) call (bottom_of stack.old.items) marks.new.items stack.new.items }
    ensures falls { work call marks.new.items stack.new.items < work call marks.old.items stack.old.items }
    ensures marks { vec_capacity marks.old ≤ vec_capacity marks.new }
    ensures room { vec_capacity stack.old ≤ vec_capacity stack.new }
{
    let number = stack[stack.len() - 1];
    match next_step(nodes, marks, call, a, number) {
        Step::Value(value) => {
            marks[number as usize] = Mark { call, value };
            let _top = stack.pop();
        }
        Step::Below(below) => stack.push_reserved(below),
    }
}

/// What a node says under an assignment. The marks are of earlier calls, and the stack has room for all nodes.
pub fn evaluate(
    nodes: &[AigNode],
    marks: &mut Vec<Mark>,
    stack: &mut Vec<u32>,
    call: u32,
    a: &Assignment,
    root: u32,
) -> bool
    requires ordered { IsOrdered nodes.now (length a.now) }
    requires small { length nodes.now < 2 ^ 31 }
    requires one_each { length marks.old.items ≡ length nodes.now }
    requires fresh { (i : ℕ) → i < length marks.old.items → call_at marks.old.items i < call }
    requires room { length nodes.now ≤ vec_capacity stack.old }
    requires within { root < length nodes.now }
    ensures value { result ≡ value_of nodes.now (value_at a.now) root }
    ensures one_each { length marks.new.items ≡ length nodes.now }
    ensures marked { AreMarkedBy call marks.new.items }
    ensures marks { vec_capacity marks.old ≤ vec_capacity marks.new }
    ensures room { vec_capacity stack.old ≤ vec_capacity stack.new }
{
    stack.clear();
    stack.push_reserved(root);
    while !stack.is_empty() {
        advance(nodes, marks, stack, call, a);
    }
    marks[root as usize].value
}
