//! Constant symbolic objects, placed in an arena.

ghost use Rattle.std.specs.Prelude.{◌≡◌, ◌≢◌, ◌∷◌, ℕ, Bool, IfOk, IsErrOf};
ghost use Rattle.gl_logic.specs.Object.{Symbol, boolean_object};
ghost use Rattle.hons_arena.specs.Held.{IsWhole as IsArenaWhole, LacksCell, Places as PlacesObject};
ghost use Rattle.sym_objects.specs.declared.fault.SobFault.TheVariants as fault;
ghost use Rattle.sym_objects.specs.declared.node.Node.TheVariants as node;
ghost use Rattle.sym_objects.specs.declared.walk.Focus.TheVariants as focus;
ghost use Rattle.sym_objects.specs.Arenas.{Extends, IsConsOf, IsConstantNode, IsIdOfNode};
ghost use Rattle.sym_objects.specs.Makes.{Places};
ghost use Rattle.sym_objects.specs.Memos.{AreRight};
ghost use Rattle.sym_objects.specs.Nodes.{kind_of, node_at};
ghost use Rattle.sym_objects.specs.Seen.{IsConstant, IsLive, IsWhole, stands_for};
ghost use Rattle.sym_objects.specs.Truths.{number_of, sob_of};
ghost use Rattle.sym_objects.specs.Walks.{IsNext, Turns};

use super::fault::SobFault;
use super::memo::{Key, Memo};
use super::node::Node;
use super::numbers::{integer_of_bits, is_true};
use super::sob::{Sob, SobNode};
use super::sobs::Sobs;
use super::stack::Stack;
use super::walk::{Focus, Frame};
use bfr_store::Bits;
use gl_logic::TextId;
use hons_arena::{Full, HonsArena, Id};
use std::alloc::Global;

impl<B: Bits> Sobs<B> {
    /// Places the object of a constant node in an arena. Full exactly where the object's different cells that the arena
    /// does not hold are more than its free room. Parts that are shared are gone through once.
    pub fn to_arena(&self, alloc: Global, s: Sob, arena: &mut HonsArena) -> Result<Id, SobFault>
        requires whole { IsWhole B.Meaning self.now }
        requires live { IsLive self.now s }
        requires constant { IsConstant B.Meaning self.now s }
        ensures places { (a : ℕ → Bool) → Places arena.old arena.new (stands_for B.Meaning self.now s a) result }
    {
        // Read for what it tells of the arena: no cell is there twice.
        let _count = arena.count();
        let mut memo = Memo::new(alloc);
        let mut frames = Stack::new(alloc);
        let mut focus = Focus::Visit(s);
        loop {
            match focus {
                Focus::Visit(x) => focus = visit(self, arena, x, &memo, &mut frames)?,
                Focus::Give(x, id) => match frames.pop() {
                    None => return Ok(id),
                    Some(frame) => {
                        focus = give(self, arena, frame, x, id, &mut memo, &mut frames)?
                    }
                },
            }
        }
    }
}

fn key_of(x: Sob) -> Key
    ensures { sob_of result ≡ x }
{
    Key {
        first: u64::from(x.number),
        second: 0,
    }
}

/// The symbol T or NIL.
fn symbol_of(b: bool) -> TextId
    ensures { boolean_object b ≡ Symbol result.number }
{
    if b {
        TextId { number: 1 }
    } else {
        TextId { number: 0 }
    }
}

/// Looks at a node whose object is to be placed.
fn visit<B: Bits>(
    objs: &Sobs<B>,
    arena: &mut HonsArena,
    x: Sob,
    memo: &Memo<Id>,
    frames: &mut Stack<Frame<Sob, Id>>,
) -> Result<Focus<Sob, Id>, SobFault>
    requires whole { IsWhole B.Meaning objs.now }
    requires held { IsArenaWhole arena.old }
    requires node { IsConstantNode B.Meaning objs.now x }
    requires memo { AreRight sob_of (IsIdOfNode B.Meaning objs.now arena.old) memo.now }
    ensures extends { (a : ℕ → Bool) → Extends arena.old arena.new (stands_for B.Meaning objs.now x a) }
    ensures lacks { IsErrOf result fault.Full → (a : ℕ → Bool) → LacksCell arena.new (stands_for B.Meaning objs.now x a) }
    ensures turn { IfOk result (λ f. Turns (IsIdOfNode B.Meaning objs.now arena.old) (IsIdOfNode B.Meaning objs.now arena.new) (IsConsOf B.Meaning objs.now) (IsConsOf B.Meaning objs.now) (IsConstantNode B.Meaning objs.now) number_of frames.old frames.new (focus.Visit x) f) }
    ensures memo { IfOk result (λ f. AreRight sob_of (IsIdOfNode B.Meaning objs.now arena.new) memo.now) }
{
    match objs.inner(x) {
        Node::Pair(first, second) => {
            if let Some(known) = memo.look(key_of(x)) {
                return Ok(Focus::Give(x, known));
            }
            frames.push(Frame {
                whole: x,
                first,
                second,
                found: None,
            })?;
            Ok(Focus::Visit(first))
        }
        _ => Ok(Focus::Give(x, place_atom(objs, arena, x)?)),
    }
}

/// Places the object of a constant node that is no cons.
fn place_atom<B: Bits>(objs: &Sobs<B>, arena: &mut HonsArena, x: Sob) -> Result<Id, Full>
    requires whole { IsWhole B.Meaning objs.now }
    requires held { IsArenaWhole arena.old }
    requires node { IsConstantNode B.Meaning objs.now x }
    requires atom { (a d : Sob) → node_at objs.now.nodes x ≢ node.Pair a d }
    ensures places { (a : ℕ → Bool) → PlacesObject arena.old arena.new (stands_for B.Meaning objs.now x a) result }
    ensures whole { IsArenaWhole arena.new }
{
    match objs.inner(x) {
        Node::Character(code) => arena.character(code),
        Node::Symbol(t) => Ok(arena.symbol(t)),
        Node::Text(t) => Ok(arena.string(t)),
        Node::Boolean(e) => Ok(arena.symbol(symbol_of(is_true(objs, e)))),
        Node::Sign(_) => place_integer(objs, arena, x),
        Node::Bit(..) => place_integer(objs, arena, x),
        Node::Pair(..) => unreachable!(),
        Node::Choice(..) => unreachable!(),
    }
}

/// Places a constant integer.
fn place_integer<B: Bits>(objs: &Sobs<B>, arena: &mut HonsArena, x: Sob) -> Result<Id, Full>
    requires whole { IsWhole B.Meaning objs.now }
    requires node { IsConstantNode B.Meaning objs.now x }
    requires integer { kind_of (node_at objs.now.nodes x) ≡ SobNode.Integer }
    ensures places { (a : ℕ → Bool) → PlacesObject arena.old arena.new (stands_for B.Meaning objs.now x a) result }
    ensures whole { IsArenaWhole arena.new }
{
    let bits = objs.bits_of(x);
    let value = integer_of_bits(objs, &bits);
    arena.int(value)
}

/// Hands an id to the frame on top.
fn give<B: Bits>(
    objs: &Sobs<B>,
    arena: &mut HonsArena,
    frame: Frame<Sob, Id>,
    x: Sob,
    id: Id,
    memo: &mut Memo<Id>,
    frames: &mut Stack<Frame<Sob, Id>>,
) -> Result<Focus<Sob, Id>, SobFault>
    requires held { IsArenaWhole arena.old }
    requires cons { IsConsOf B.Meaning objs.now frame.first frame.second frame.whole }
    requires next { IsNext (IsIdOfNode B.Meaning objs.now arena.old) frame.first frame.second frame.found x }
    requires id { IsIdOfNode B.Meaning objs.now arena.old x id }
    requires memo { AreRight sob_of (IsIdOfNode B.Meaning objs.now arena.old) memo.old }
    ensures extends { (a : ℕ → Bool) → Extends arena.old arena.new (stands_for B.Meaning objs.now frame.whole a) }
    ensures lacks { IsErrOf result fault.Full → (a : ℕ → Bool) → LacksCell arena.new (stands_for B.Meaning objs.now frame.whole a) }
    ensures turn { IfOk result (λ f. Turns (IsIdOfNode B.Meaning objs.now arena.old) (IsIdOfNode B.Meaning objs.now arena.new) (IsConsOf B.Meaning objs.now) (IsConsOf B.Meaning objs.now) (IsConstantNode B.Meaning objs.now) number_of (frame ∷ frames.old) frames.new (focus.Give x id) f) }
    ensures memo { IfOk result (λ f. AreRight sob_of (IsIdOfNode B.Meaning objs.now arena.new) memo.new) }
{
    match frame.found {
        None => {
            frames.push(Frame {
                whole: frame.whole,
                first: frame.first,
                second: frame.second,
                found: Some(id),
            })?;
            Ok(Focus::Visit(frame.second))
        }
        Some(first) => {
            let made = place_cons(objs, arena, frame, first, id)?;
            memo.keep(key_of(frame.whole), made)?;
            Ok(Focus::Give(frame.whole, made))
        }
    }
}

/// Places a cons whose parts are placed.
fn place_cons<B: Bits>(
    objs: &Sobs<B>,
    arena: &mut HonsArena,
    frame: Frame<Sob, Id>,
    first: Id,
    second: Id,
) -> Result<Id, Full>
    requires cons { IsConsOf B.Meaning objs.now frame.first frame.second frame.whole }
    requires first { IsIdOfNode B.Meaning objs.now arena.old frame.first first }
    requires second { IsIdOfNode B.Meaning objs.now arena.old frame.second second }
    ensures places { (a : ℕ → Bool) → PlacesObject arena.old arena.new (stands_for B.Meaning objs.now frame.whole a) result }
    ensures whole { IsArenaWhole arena.new }
{
    let _ = objs;
    arena.cons(first, second)
}
