//! Whether a symbolic object is not NIL, by a work list.

ghost use Rattle.std.specs.Prelude.{◌≡◌, ◌≤◌, ◌∷◌, ℕ, Bool, not, length, IfOk, IsErrOf, OnErr, Some};
ghost use Rattle.gl_logic.specs.ObjectEq.{is_nil};
ghost use Rattle.sym_objects.specs.declared.fault.SobFault.TheVariants as fault;
ghost use Rattle.sym_objects.specs.declared.walk.Focus.TheVariants as focus;
ghost use Rattle.sym_objects.specs.Keeps.{Keeps};
ghost use Rattle.sym_objects.specs.Makes.{MakesEdge};
ghost use Rattle.sym_objects.specs.Memos.{AreRight};
ghost use Rattle.sym_objects.specs.Seen.{IsLive, IsWhole, stands_for};
ghost use Rattle.sym_objects.specs.Truths.{IsChoiceOf, IsTruthOf, number_of, sob_of};
ghost use Rattle.sym_objects.specs.Walks.{IsNext, Turns};

use super::edges::choose_edge;
use super::fault::SobFault;
use super::memo::{Key, Memo};
use super::node::Node;
use super::sob::Sob;
use super::sobs::Sobs;
use super::stack::Stack;
use super::walk::{Focus, Frame};
use bfr_store::{Bits, Edge, Full};
use std::alloc::Global;

impl<B: Bits> Sobs<B> {
    /// The function that is true where the object is not NIL. It goes through the choices alone, on a work list, and
    /// through each of them once.
    pub fn truth(&mut self, alloc: Global, s: Sob) -> Result<Edge, SobFault>
        requires whole { IsWhole B.Meaning self.old }
        requires live { IsLive self.old s }
        ensures makes { MakesEdge B.Meaning self.old self.new result (λ a. not (is_nil (stands_for B.Meaning self.old s a))) }
        ensures full { IsErrOf result fault.Full → B.count_of self.new.store ≡ B.limit_of self.new.store }
        ensures nodes { self.new.nodes ≡ self.old.nodes }
    {
        let mut memo = Memo::new(alloc);
        let mut frames = Stack::new(alloc);
        let mut focus = Focus::Visit(s);
        loop {
            match focus {
                Focus::Visit(x) => focus = visit(self, x, &memo, &mut frames)?,
                Focus::Give(x, e) => match frames.pop() {
                    None => return Ok(e),
                    Some(frame) => focus = give(self, frame, x, e, &mut memo, &mut frames)?,
                },
            }
        }
    }
}

fn key_of(x: Sob) -> Key
    ensures { sob_of result ≡ x }
{
    Key {
        first: u64::from(x.number),
        second: 0,
    }
}

/// Looks at an object whose truth is wanted.
fn visit<B: Bits>(
    objs: &Sobs<B>,
    x: Sob,
    memo: &Memo<Edge>,
    frames: &mut Stack<Frame<Sob, Edge>>,
) -> Result<Focus<Sob, Edge>, SobFault>
    requires whole { IsWhole B.Meaning objs.now }
    requires live { IsLive objs.now x }
    requires memo { AreRight sob_of (IsTruthOf B.Meaning objs.now) memo.now }
    ensures turn { IfOk result (λ f. Turns (IsTruthOf B.Meaning objs.now) (IsTruthOf B.Meaning objs.now) (IsChoiceOf objs.now.nodes) (IsChoiceOf objs.now.nodes) (IsLive objs.now) number_of frames.old frames.new (focus.Visit x) f) }
    ensures memory { OnErr result (result ≡ Err SobFault.Memory) }
{
    match objs.inner(x) {
        Node::Boolean(e) => Ok(Focus::Give(x, e)),
        Node::Choice(_, first, second) => {
            if let Some(known) = memo.look(key_of(x)) {
                return Ok(Focus::Give(x, known));
            }
            frames.push(Frame {
                whole: x,
                first,
                second,
                found: None,
            })?;
            Ok(Focus::Visit(first))
        }
        _ => Ok(Focus::Give(x, objs.constant_edge(true))),
    }
}

/// Hands a truth to the frame on top.
fn give<B: Bits>(
    objs: &mut Sobs<B>,
    frame: Frame<Sob, Edge>,
    x: Sob,
    e: Edge,
    memo: &mut Memo<Edge>,
    frames: &mut Stack<Frame<Sob, Edge>>,
) -> Result<Focus<Sob, Edge>, SobFault>
    requires whole { IsWhole B.Meaning objs.old }
    requires choice { IsChoiceOf objs.old.nodes frame.first frame.second frame.whole }
    requires next { IsNext (IsTruthOf B.Meaning objs.old) frame.first frame.second frame.found x }
    requires edge { IsTruthOf B.Meaning objs.old x e }
    requires memo { AreRight sob_of (IsTruthOf B.Meaning objs.old) memo.old }
    ensures keeps { Keeps B.Meaning objs.old objs.new }
    ensures nodes { objs.new.nodes ≡ objs.old.nodes }
    ensures turn { IfOk result (λ f. Turns (IsTruthOf B.Meaning objs.old) (IsTruthOf B.Meaning objs.new) (IsChoiceOf objs.old.nodes) (IsChoiceOf objs.new.nodes) (IsLive objs.new) number_of (frame ∷ frames.old) frames.new (focus.Give x e) f) }
    ensures memo { IfOk result (λ f. AreRight sob_of (IsTruthOf B.Meaning objs.new) memo.new) }
    ensures full { IsErrOf result fault.Full → B.count_of objs.new.store ≡ B.limit_of objs.new.store }
{
    match frame.found {
        None => {
            frames.push(Frame {
                whole: frame.whole,
                first: frame.first,
                second: frame.second,
                found: Some(e),
            })?;
            Ok(Focus::Visit(frame.second))
        }
        Some(first) => {
            let made = choose(objs, frame, first, e)?;
            memo.keep(key_of(frame.whole), made)?;
            Ok(Focus::Give(frame.whole, made))
        }
    }
}

/// The truth of a choice, by those of its two objects.
fn choose<B: Bits>(
    objs: &mut Sobs<B>,
    frame: Frame<Sob, Edge>,
    first: Edge,
    second: Edge,
) -> Result<Edge, Full>
    requires whole { IsWhole B.Meaning objs.old }
    requires choice { IsChoiceOf objs.old.nodes frame.first frame.second frame.whole }
    requires first { IsTruthOf B.Meaning objs.old frame.first first }
    requires second { IsTruthOf B.Meaning objs.old frame.second second }
    ensures keeps { Keeps B.Meaning objs.old objs.new }
    ensures nodes { objs.new.nodes ≡ objs.old.nodes }
    ensures truth { IfOk result (λ e. IsTruthOf B.Meaning objs.new frame.whole e) }
    ensures full { OnErr result (B.count_of objs.new.store ≡ B.limit_of objs.new.store) }
{
    match objs.inner(frame.whole) {
        Node::Choice(test, ..) => choose_edge(objs, test, first, second),
        _ => unreachable!(),
    }
}
