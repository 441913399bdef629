//! Which calls need no new node, and what stands for the others.

ghost use Rattle.std.specs.Prelude.{◌≡◌, ◌≢◌, ◌<◌, ◌&&◌, ℕ, Bool, List, cond, true, IfSome, IfNone};
ghost use Rattle.bfr_store.specs.Edges.{node_of, truth_at, xor};
ghost use Rattle.bdd_store.specs.Plans.{plan_value, IsDrawn, IsDrawnPlan, IsOpen, HasConstant};

use super::node::{FALSE, TRUE};
use bfr_store::Edge;

/// How a choice is to be made. A flag asks for the complement of what is found.
#[derive(Clone, Copy)]
pub enum Plan {
    /// The answer.
    Known(Edge),
    /// A conjunction.
    Both(Edge, Edge, bool),
    /// A choice in its normal form: the first two edges are not complemented.
    Whole(Edge, Edge, Edge, bool),
}

/// The conjunction, where it is one of the two or a constant.
pub fn conjunction_of(x: Edge, y: Edge) -> Option<Edge>
    ensures truth { IfSome result (λ r. (values : List Bool) → HasConstant values → truth_at values r ≡ (truth_at values x && truth_at values y)) }
    ensures drawn { IfSome result (IsDrawn x x y) }
    ensures open_x { IfNone result (0 < node_of x) }
    ensures open_y { IfNone result (0 < node_of y) }
{
    if x.node() == y.node() {
        return Some(if x.number == y.number { x } else { FALSE });
    }
    if x.node() == 0 {
        return Some(if x.number == 0 { y } else { FALSE });
    }
    if y.node() == 0 {
        return Some(if y.number == 0 { x } else { FALSE });
    }
    None
}

/// An edge, where what is asked of it lies in the part where `t` is true: a constant where its node is that of `t`.
pub fn under(t: Edge, x: Edge) -> Edge
    ensures truth { (values : List Bool) → HasConstant values → truth_at values t ≡ true → truth_at values result ≡ truth_at values x }
    ensures drawn { IsDrawn t x x result }
    ensures constant { node_of x ≡ node_of t → node_of result ≡ 0 }
{
    if x.node() != t.node() {
        return x;
    }
    if x.number == t.number { TRUE } else { FALSE }
}

/// How the choice of `x` where `t` is true, and `y` elsewhere, is to be made.
pub fn plan_of(t: Edge, x: Edge, y: Edge) -> Plan
    ensures truth { (values : List Bool) → HasConstant values → plan_value values result ≡ cond (truth_at values t) (truth_at values x) (truth_at values y) }
    ensures drawn { IsDrawnPlan t x y result }
    ensures open { IsOpen result }
{
    if t.node() == 0 {
        return Plan::Known(if t.number == 0 { x } else { y });
    }
    let high = under(t, x);
    let low = under(t.complement(), y);
    if high.number == low.number {
        return Plan::Known(high);
    }
    if high.node() == 0 {
        return beside_constant(t, high, low);
    }
    if low.node() == 0 {
        return beside_low_constant(t, high, low);
    }
    symmetric(t, high, low)
}

/// The plan where the high edge is a constant: a disjunction, or a conjunction.
fn beside_constant(t: Edge, high: Edge, low: Edge) -> Plan
    requires { node_of high ≡ 0 }
    ensures truth { (values : List Bool) → HasConstant values → plan_value values result ≡ cond (truth_at values t) (truth_at values high) (truth_at values low) }
    ensures drawn { IsDrawnPlan t high low result }
    ensures open { IsOpen result }
{
    if high.number == 0 {
        Plan::Both(t.complement(), low.complement(), true)
    } else {
        Plan::Both(t.complement(), low, false)
    }
}

/// The plan where the low edge is a constant: an implication, or a conjunction.
fn beside_low_constant(t: Edge, high: Edge, low: Edge) -> Plan
    requires { node_of low ≡ 0 }
    ensures truth { (values : List Bool) → HasConstant values → plan_value values result ≡ cond (truth_at values t) (truth_at values high) (truth_at values low) }
    ensures drawn { IsDrawnPlan t high low result }
    ensures open { IsOpen result }
{
    if low.number == 0 {
        Plan::Both(t, high.complement(), true)
    } else {
        Plan::Both(t, high, false)
    }
}

/// The plan of a choice whose test is no constant. Where the edges are complements of one another the test and the high
/// edge may change places, and the one with the smaller node is the test.
fn symmetric(t: Edge, high: Edge, low: Edge) -> Plan
    requires t { 0 < node_of t }
    requires high { 0 < node_of high }
    requires apart { high.number ≢ low.number }
    ensures truth { (values : List Bool) → plan_value values result ≡ cond (truth_at values t) (truth_at values high) (truth_at values low) }
    ensures drawn { IsDrawnPlan t high low result }
    ensures open { IsOpen result }
{
    if high.node() == low.node() && high.node() < t.node() {
        regular(high, t, t.complement())
    } else {
        regular(t, high, low)
    }
}

/// The normal form of a choice: the test and the high edge are not complemented.
fn regular(t: Edge, high: Edge, low: Edge) -> Plan
    requires { 0 < node_of t }
    ensures truth { (values : List Bool) → plan_value values result ≡ cond (truth_at values t) (truth_at values high) (truth_at values low) }
    ensures drawn { IsDrawnPlan t high low result }
    ensures open { IsOpen result }
{
    if t.is_complemented() {
        regular_high(t.complement(), low, high)
    } else {
        regular_high(t, high, low)
    }
}

/// The normal form of a choice whose test is not complemented.
fn regular_high(t: Edge, high: Edge, low: Edge) -> Plan
    requires { 0 < node_of t }
    ensures truth { (values : List Bool) → plan_value values result ≡ cond (truth_at values t) (truth_at values high) (truth_at values low) }
    ensures drawn { IsDrawnPlan t high low result }
    ensures open { IsOpen result }
{
    let flag = high.is_complemented();
    Plan::Whole(t, high.flipped_if(flag), low.flipped_if(flag), flag)
}
