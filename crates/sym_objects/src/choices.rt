//! Choices kind by kind: one Boolean, one integer and one cons at most, and then other objects in the order of their making.

ghost use Rattle.std.specs.Prelude.{◌≡◌, ◌≢◌, ◌<◌, ◌≤◌, ℕ, Bool, cond, IfOk, IfSome, IsTrue, OnErr};
ghost use Rattle.gl_logic.specs.Object.{Cons};
ghost use Rattle.sym_objects.specs.Keeps.{Keeps};
ghost use Rattle.sym_objects.specs.Makes.{Makes};
ghost use Rattle.sym_objects.specs.Merging.{AreHalvesOf, AreLive, IsFrontOf, IsMergeOf, IsSideOf};
ghost use Rattle.sym_objects.specs.Seen.{IsFull, IsLive, IsWhole, stands_for};

use super::edges::choose_edge;
use super::merge::Both;
use super::node::Node;
use super::sob::{Sob, SobNode};
use super::sobs::Sobs;
use bfr_store::{Bits, Edge, Full};

/// A choice's first object and what is left behind it, or any other object alone.
#[derive(Clone, Copy)]
pub struct Front {
    pub first: Sob,
    pub rest: Option<Sob>,
}

/// Cuts the first object off a choice.
fn cut<B: Bits>(objs: &Sobs<B>, s: Sob) -> Front
    requires whole { IsWhole B.Meaning objs.now }
    requires live { IsLive objs.now s }
    ensures front { IsFrontOf result s }
    ensures near { result.first.number ≤ s.number }
{
    match objs.inner(s) {
        Node::Choice(_, a, d) => Front {
            first: a,
            rest: Some(d),
        },
        _ => Front {
            first: s,
            rest: None,
        },
    }
}

/// The place of an object's kind in a choice; of a choice, that of its first object.
fn rank<B: Bits>(objs: &Sobs<B>, s: Sob) -> u64
    requires whole { IsWhole B.Meaning objs.now }
    requires live { IsLive objs.now s }
{
    let first = cut(objs, s).first;
    match objs.node_of(first) {
        SobNode::Boolean(_) => 0,
        SobNode::Integer => 1,
        SobNode::Pair(..) => 2,
        _ => 3 + u64::from(first.number),
    }
}

/// The objects of the first kind of two, and what is left of both. None where neither is a choice that begins with it.
pub(crate) fn by_kind<B: Bits>(objs: &Sobs<B>, key: Both) -> Option<(Both, Both)>
    requires whole { IsWhole B.Meaning objs.now }
    requires live { AreLive objs.now key }
    requires differ { key.first.number ≢ key.second.number }
    ensures { IfSome result (λ p. AreHalvesOf objs.now p.0 p.1 key) }
{
    let p = cut(objs, key.first);
    let q = cut(objs, key.second);
    let r = rank(objs, key.first);
    let s = rank(objs, key.second);
    if r < s {
        match p.rest {
            Some(d) => Some((Both::of(p.first, p.first), Both::of(d, key.second))),
            None => None,
        }
    } else if s < r {
        match q.rest {
            Some(e) => Some((Both::of(q.first, q.first), Both::of(key.first, e))),
            None => None,
        }
    } else {
        of_one_kind(objs, key, p, q)
    }
}

/// The same, where the first objects are of one kind.
fn of_one_kind<B: Bits>(objs: &Sobs<B>, key: Both, p: Front, q: Front) -> Option<(Both, Both)>
    requires live { AreLive objs.now key }
    requires differ { key.first.number ≢ key.second.number }
    requires first { IsFrontOf p key.first }
    requires second { IsFrontOf q key.second }
    ensures { IfSome result (λ h. AreHalvesOf objs.now h.0 h.1 key) }
{
    let firsts = Both::of(p.first, q.first);
    match (p.rest, q.rest) {
        (Some(d), Some(e)) => Some((firsts, Both::of(d, e))),
        (Some(d), None) => Some((firsts, Both::of(d, d))),
        (None, Some(e)) => Some((firsts, Both::of(e, e))),
        (None, None) => None,
    }
}

/// Whether an object is the cons of these two.
pub(crate) fn is_cons_of<B: Bits>(objs: &Sobs<B>, whole: Sob, first: Sob, rest: Sob) -> bool
    requires whole { IsWhole B.Meaning objs.now }
    requires live { IsLive objs.now whole }
    ensures { IsTrue result → (v : ℕ → Bool) → stands_for B.Meaning objs.now whole v ≡ Cons (stands_for B.Meaning objs.now first v) (stands_for B.Meaning objs.now rest v) }
{
    match objs.inner(whole) {
        Node::Pair(a, d) => a == first && d == rest,
        _ => false,
    }
}

/// The edge where a whole is the one object, if it is the other elsewhere.
pub(crate) fn side<B: Bits>(objs: &Sobs<B>, whole: Sob, a: Sob, b: Sob) -> Option<Edge>
    requires whole { IsWhole B.Meaning objs.now }
    requires live { IsLive objs.now whole }
    ensures { IfSome result (IsSideOf B.Meaning objs.now whole a b) }
{
    if whole == a {
        return Some(objs.constant_edge(true));
    }
    if whole == b {
        return Some(objs.constant_edge(false));
    }
    match objs.inner(whole) {
        Node::Choice(e, x, y) => { if x == a && y == b { Some(e) } else { None } }
        _ => None,
    }
}

/// The one object where the edge is true, and the other elsewhere.
pub(crate) fn choice<B: Bits>(objs: &mut Sobs<B>, e: Edge, x: Sob, y: Sob) -> Result<Sob, Full>
    requires whole { IsWhole B.Meaning objs.old }
    requires edge { B.live objs.old.store e }
    requires first { IsLive objs.old x }
    requires second { IsLive objs.old y }
    ensures makes { Makes B.Meaning objs.old objs.new result (λ v. cond (B.truth_of objs.old.store e v) (stands_for B.Meaning objs.old x v) (stands_for B.Meaning objs.old y v)) }
    ensures full { OnErr result (IsFull B.Meaning objs.new) }
{
    if e == objs.constant_edge(true) {
        return Ok(x);
    }
    if e == objs.constant_edge(false) {
        return Ok(y);
    }
    objs.add(Node::Choice(e, x, y))
}

/// The choice of two objects, the one of the earlier kind in front.
pub(crate) fn in_order<B: Bits>(objs: &mut Sobs<B>, test: Edge, key: Both) -> Result<Sob, Full>
    requires whole { IsWhole B.Meaning objs.old }
    requires test { B.live objs.old.store test }
    requires live { AreLive objs.old key }
    ensures keeps { Keeps B.Meaning objs.old objs.new }
    ensures merge { IfOk result (λ r. IsMergeOf B.Meaning test objs.new key r) }
    ensures full { OnErr result (IsFull B.Meaning objs.new) }
{
    if rank(objs, key.first) <= rank(objs, key.second) {
        return choice(objs, test, key.first, key.second);
    }
    let never = objs.constant_edge(false);
    let always = objs.constant_edge(true);
    let opposite = choose_edge(objs, test, never, always)?;
    choice(objs, opposite, key.second, key.first)
}
