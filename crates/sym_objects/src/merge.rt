//! The merge of two symbolic objects, by a work list.

ghost use Rattle.std.specs.Prelude.{◌≡◌, ◌≢◌, ◌∷◌, ℕ, Bool, cond, IfOk, IfSome, IsErrOf, OnErr, Some};
ghost use Rattle.sym_objects.specs.declared.fault.SobFault.TheVariants as fault;
ghost use Rattle.sym_objects.specs.declared.walk.Focus.TheVariants as focus;

use super::bits::choose_bits;
use super::choices::{by_kind, choice, in_order, is_cons_of, side};
use super::edges::choose_edge;
use super::fault::SobFault;
use super::memo::{Key, Memo};
use super::node::Node;
use super::sob::{Sob, SobNode};
use super::sobs::Sobs;
use super::stack::Stack;
use super::walk::{Focus, Frame};
use bfr_store::{Bits, Edge, Full};
use std::alloc::Global;

/// Two objects that are to be merged.
#[derive(Clone, Copy, Drop)]
pub struct Both {
    pub first: Sob,
    pub second: Sob,
}

impl Both {
    /// These two.
    pub(crate) fn of(first: Sob, second: Sob) -> Both
        ensures first { result.first ≡ first }
        ensures second { result.second ≡ second }
    {
        Both { first, second }
    }
}

ghost use Rattle.sym_objects.specs.Keeps.{Keeps};
ghost use Rattle.sym_objects.specs.Makes.{Makes};
ghost use Rattle.sym_objects.specs.Memos.{AreRight};
ghost use Rattle.sym_objects.specs.Merging.{AreHalvesOf, AreLive, IsMergeOf, both_of, size_of_both};
ghost use Rattle.sym_objects.specs.Nodes.{kind_of, node_at};
ghost use Rattle.sym_objects.specs.Seen.{IsFull, IsLive, IsWhole, stands_for};
ghost use Rattle.sym_objects.specs.Walks.{IsNext, Turns};

impl<B: Bits> Sobs<B> {
    /// The object that is `a` where the test is true, and `b` elsewhere. It goes to the end of both on a work list: two
    /// integers are merged bit by bit, the shorter one padded by its sign, two Booleans by their edges, and two conses part
    /// by part; equal nodes are their own merge, and any other two make a choice. Choices are merged kind by kind, so that a
    /// choice has one Boolean, one integer and one cons at most. Parts that are met again are merged once.
    pub fn merge(&mut self, alloc: Global, test: Edge, a: Sob, b: Sob) -> Result<Sob, SobFault>
        requires whole { IsWhole B.Meaning self.old }
        requires test { B.live self.old.store test }
        requires first { IsLive self.old a }
        requires second { IsLive self.old b }
        ensures makes { Makes B.Meaning self.old self.new result (λ v. cond (B.truth_of self.old.store test v) (stands_for B.Meaning self.old a v) (stands_for B.Meaning self.old b v)) }
        ensures full { IsErrOf result fault.Full → IsFull B.Meaning self.new }
    {
        let mut memo = Memo::new(alloc);
        let mut frames = Stack::new(alloc);
        let mut focus = Focus::Visit(Both {
            first: a,
            second: b,
        });
        loop {
            match focus {
                Focus::Visit(key) => focus = visit(self, test, key, &mut memo, &mut frames)?,
                Focus::Give(key, value) => match frames.pop() {
                    None => return Ok(value),
                    Some(frame) => {
                        focus = give(self, test, frame, key, value, &mut memo, &mut frames)?
                    }
                },
            }
        }
    }
}

fn key_of(k: Both) -> Key
    ensures { both_of result ≡ k }
{
    Key {
        first: u64::from(k.first.number),
        second: u64::from(k.second.number),
    }
}

/// Looks at two objects that are to be merged.
fn visit<B: Bits>(
    objs: &mut Sobs<B>,
    test: Edge,
    key: Both,
    memo: &mut Memo<Sob>,
    frames: &mut Stack<Frame<Both, Sob>>,
) -> Result<Focus<Both, Sob>, SobFault>
    requires whole { IsWhole B.Meaning objs.old }
    requires test { B.live objs.old.store test }
    requires live { AreLive objs.old key }
    requires memo { AreRight both_of (IsMergeOf B.Meaning test objs.old) memo.old }
    ensures keeps { Keeps B.Meaning objs.old objs.new }
    ensures turn { IfOk result (λ f. Turns (IsMergeOf B.Meaning test objs.old) (IsMergeOf B.Meaning test objs.new) (AreHalvesOf objs.old) (AreHalvesOf objs.new) (AreLive objs.new) size_of_both frames.old frames.new (focus.Visit key) f) }
    ensures memo { IfOk result (λ f. AreRight both_of (IsMergeOf B.Meaning test objs.new) memo.new) }
    ensures full { IsErrOf result fault.Full → IsFull B.Meaning objs.new }
{
    if key.first == key.second {
        return Ok(Focus::Give(key, key.first));
    }
    if let Some(known) = memo.look(key_of(key)) {
        return Ok(Focus::Give(key, known));
    }
    if let Some(halves) = parts(objs, key) {
        frames.push(Frame {
            whole: key,
            first: halves.0,
            second: halves.1,
            found: None,
        })?;
        return Ok(Focus::Visit(halves.0));
    }
    let made = leaf(objs, test, key)?;
    memo.keep(key_of(key), made)?;
    Ok(Focus::Give(key, made))
}

/// What is merged in place of two wholes: of two conses their first and their second parts; where one is a choice, the objects
/// of the first kind and what is left of both. None where the two are merged at once.
fn parts<B: Bits>(objs: &Sobs<B>, key: Both) -> Option<(Both, Both)>
    requires whole { IsWhole B.Meaning objs.now }
    requires live { AreLive objs.now key }
    requires differ { key.first.number ≢ key.second.number }
    ensures { IfSome result (λ p. AreHalvesOf objs.now p.0 p.1 key) }
{
    match (objs.inner(key.first), objs.inner(key.second)) {
        (Node::Pair(a, d), Node::Pair(b, e)) => Some((Both::of(a, b), Both::of(d, e))),
        _ => by_kind(objs, key),
    }
}

/// The merge of two objects that have no parts to be merged.
fn leaf<B: Bits>(objs: &mut Sobs<B>, test: Edge, key: Both) -> Result<Sob, Full>
    requires whole { IsWhole B.Meaning objs.old }
    requires test { B.live objs.old.store test }
    requires live { AreLive objs.old key }
    ensures keeps { Keeps B.Meaning objs.old objs.new }
    ensures merge { IfOk result (λ r. IsMergeOf B.Meaning test objs.new key r) }
    ensures full { OnErr result (IsFull B.Meaning objs.new) }
{
    match (objs.node_of(key.first), objs.node_of(key.second)) {
        (SobNode::Boolean(x), SobNode::Boolean(y)) => {
            let e = choose_edge(objs, test, x, y)?;
            objs.boolean(e)
        }
        (SobNode::Integer, SobNode::Integer) => integers(objs, test, key),
        _ => in_order(objs, test, key),
    }
}

/// The merge of two wholes, from those of their parts.
fn joined<B: Bits>(
    objs: &mut Sobs<B>,
    test: Edge,
    whole: Both,
    first: Both,
    second: Both,
    x: Sob,
    y: Sob,
) -> Result<Sob, Full>
    requires whole { IsWhole B.Meaning objs.old }
    requires test { B.live objs.old.store test }
    requires live { AreLive objs.old whole }
    requires first { IsMergeOf B.Meaning test objs.old first x }
    requires second { IsMergeOf B.Meaning test objs.old second y }
    ensures keeps { Keeps B.Meaning objs.old objs.new }
    ensures merge { IfOk result (λ r. IsMergeOf B.Meaning test objs.new whole r) }
    ensures full { OnErr result (IsFull B.Meaning objs.new) }
{
    if is_cons_of(objs, whole.first, first.first, second.first)
        && is_cons_of(objs, whole.second, first.second, second.second)
    {
        return objs.pair(x, y);
    }
    let e = side(objs, whole.first, first.first, second.first);
    let f = side(objs, whole.second, first.second, second.second);
    match (e, f) {
        (Some(e), Some(f)) => {
            let chosen = choose_edge(objs, test, e, f)?;
            choice(objs, chosen, x, y)
        }
        _ => leaf(objs, test, whole),
    }
}

/// The merge of two integers.
fn integers<B: Bits>(objs: &mut Sobs<B>, test: Edge, key: Both) -> Result<Sob, Full>
    requires whole { IsWhole B.Meaning objs.old }
    requires test { B.live objs.old.store test }
    requires live { AreLive objs.old key }
    requires first { kind_of (node_at objs.old.nodes key.first) ≡ SobNode.Integer }
    requires second { kind_of (node_at objs.old.nodes key.second) ≡ SobNode.Integer }
    ensures keeps { Keeps B.Meaning objs.old objs.new }
    ensures merge { IfOk result (λ r. IsMergeOf B.Meaning test objs.new key r) }
    ensures full { OnErr result (IsFull B.Meaning objs.new) }
{
    let first = objs.bits_of(key.first);
    let second = objs.bits_of(key.second);
    let bits = choose_bits(objs, test, &first, &second)?;
    objs.integer(&bits)
}

/// Hands a merge to the frame on top.
fn give<B: Bits>(
    objs: &mut Sobs<B>,
    test: Edge,
    frame: Frame<Both, Sob>,
    key: Both,
    value: Sob,
    memo: &mut Memo<Sob>,
    frames: &mut Stack<Frame<Both, Sob>>,
) -> Result<Focus<Both, Sob>, SobFault>
    requires whole { IsWhole B.Meaning objs.old }
    requires test { B.live objs.old.store test }
    requires halves { AreHalvesOf objs.old frame.first frame.second frame.whole }
    requires next { IsNext (IsMergeOf B.Meaning test objs.old) frame.first frame.second frame.found key }
    requires value { IsMergeOf B.Meaning test objs.old key value }
    requires memo { AreRight both_of (IsMergeOf B.Meaning test objs.old) memo.old }
    ensures keeps { Keeps B.Meaning objs.old objs.new }
    ensures turn { IfOk result (λ f. Turns (IsMergeOf B.Meaning test objs.old) (IsMergeOf B.Meaning test objs.new) (AreHalvesOf objs.old) (AreHalvesOf objs.new) (AreLive objs.new) size_of_both (frame ∷ frames.old) frames.new (focus.Give key value) f) }
    ensures memo { IfOk result (λ f. AreRight both_of (IsMergeOf B.Meaning test objs.new) memo.new) }
    ensures full { IsErrOf result fault.Full → IsFull B.Meaning objs.new }
{
    match frame.found {
        None => {
            frames.push(Frame {
                whole: frame.whole,
                first: frame.first,
                second: frame.second,
                found: Some(value),
            })?;
            Ok(Focus::Visit(frame.second))
        }
        Some(first) => {
            let made = joined(
                objs,
                test,
                frame.whole,
                frame.first,
                frame.second,
                first,
                value,
            )?;
            memo.keep(key_of(frame.whole), made)?;
            Ok(Focus::Give(frame.whole, made))
        }
    }
}
