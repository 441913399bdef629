//! Constant symbolic objects, from the objects of an arena.

ghost use Rattle.std.specs.Prelude.{◌≡◌, ◌≢◌, ◌∷◌, ◌&&◌, ℕ, Bool, true, length, IfOk, IsErrOf, OnErr};
ghost use Rattle.hons_arena.specs.Ids.{IsLive as IsIdLive, kind_of as object_kind, object_at};
ghost use Rattle.hons_arena.specs.declared.id.Kind.TheVariants as kind;
ghost use Rattle.sym_objects.specs.declared.fault.SobFault.TheVariants as fault;
ghost use Rattle.sym_objects.specs.declared.walk.Focus.TheVariants as focus;
ghost use Rattle.sym_objects.specs.Constants.{AreConsParts, IsConstantOf, id_of, object_of_kind, size_at};
ghost use Rattle.sym_objects.specs.Keeps.{Keeps};
ghost use Rattle.sym_objects.specs.Makes.{Makes};
ghost use Rattle.sym_objects.specs.Memos.{AreRight};
ghost use Rattle.sym_objects.specs.Seen.{IsConstant, IsLive, IsWhole, is_constant};
ghost use Rattle.sym_objects.specs.Walks.{IsNext, Turns};

use super::fault::SobFault;
use super::memo::{Key, Memo};
use super::node::Node;
use super::numbers::bits_of_integer;
use super::sob::Sob;
use super::sobs::Sobs;
use super::stack::Stack;
use super::walk::{Focus, Frame};
use bfr_store::{Bits, Full};
use gl_logic::TextId;
use hons_arena::{HonsArena, Id, Kind, kind_number};
use std::alloc::Global;

impl<B: Bits> Sobs<B> {
    /// The constant node of an arena's object. Parts that the object shares are gone through once.
    pub fn constant(&mut self, alloc: Global, arena: &HonsArena, id: Id) -> Result<Sob, SobFault>
        requires whole { IsWhole B.Meaning self.old }
        requires id { IsIdLive arena.now.objects id }
        ensures makes { Makes B.Meaning self.old self.new result (λ a. object_at arena.now.objects id) }
        ensures constant { IfOk result (λ r. IsConstant B.Meaning self.new r) }
        ensures full { IsErrOf result fault.Full → length self.new.nodes ≡ self.new.limit }
        ensures store { self.new.store ≡ self.old.store }
    {
        let mut memo = Memo::new(alloc);
        let mut frames = Stack::new(alloc);
        let mut focus = Focus::Visit(id);
        loop {
            match focus {
                Focus::Visit(x) => focus = visit(self, arena, x, &memo, &mut frames)?,
                Focus::Give(x, made) => match frames.pop() {
                    None => return Ok(made),
                    Some(frame) => {
                        focus = give(self, arena, frame, x, made, &mut memo, &mut frames)?
                    }
                },
            }
        }
    }
}

fn key_of(id: Id) -> Key
    ensures { id_of result ≡ id }
{
    Key {
        first: id.number(),
        second: u64::from(kind_number(id.kind())),
    }
}

/// Looks at an object whose constant node is wanted.
fn visit<B: Bits>(
    objs: &mut Sobs<B>,
    arena: &HonsArena,
    id: Id,
    memo: &Memo<Sob>,
    frames: &mut Stack<Frame<Id, Sob>>,
) -> Result<Focus<Id, Sob>, SobFault>
    requires whole { IsWhole B.Meaning objs.old }
    requires live { IsIdLive arena.now.objects id }
    requires memo { AreRight id_of (IsConstantOf B.Meaning objs.old arena.now.objects) memo.now }
    ensures keeps { Keeps B.Meaning objs.old objs.new }
    ensures store { objs.new.store ≡ objs.old.store }
    ensures turn { IfOk result (λ f. Turns (IsConstantOf B.Meaning objs.old arena.now.objects) (IsConstantOf B.Meaning objs.new arena.now.objects) (AreConsParts arena.now.objects) (AreConsParts arena.now.objects) (IsIdLive arena.now.objects) (size_at arena.now.objects) frames.old frames.new (focus.Visit id) f) }
    ensures memo { IfOk result (λ f. AreRight id_of (IsConstantOf B.Meaning objs.new arena.now.objects) memo.now) }
    ensures full { IsErrOf result fault.Full → length objs.new.nodes ≡ objs.new.limit }
{
    match arena.kind(id) {
        Kind::Cons => {
            if let Some(known) = memo.look(key_of(id)) {
                return Ok(Focus::Give(id, known));
            }
            let first = arena.car(id);
            frames.push(Frame {
                whole: id,
                first,
                second: arena.cdr(id),
                found: None,
            })?;
            Ok(Focus::Visit(first))
        }
        atom => Ok(Focus::Give(id, constant_atom(objs, atom)?)),
    }
}

/// The constant node of an object that is no cons.
fn constant_atom<B: Bits>(objs: &mut Sobs<B>, atom: Kind) -> Result<Sob, Full>
    requires whole { IsWhole B.Meaning objs.old }
    requires atom { atom ≢ kind.Cons }
    ensures makes { Makes B.Meaning objs.old objs.new result (λ a. object_of_kind atom) }
    ensures constant { IfOk result (λ r. is_constant B.Meaning objs.new r ≡ true) }
    ensures full { OnErr result (length objs.new.nodes ≡ objs.new.limit) }
    ensures store { objs.new.store ≡ objs.old.store }
{
    match atom {
        Kind::Int(i) => constant_integer(objs, i),
        Kind::Character(code) => objs.character(code),
        Kind::Symbol(t) => constant_symbol(objs, t),
        Kind::Text(t) => objs.add(Node::Text(t)),
        Kind::Cons => unreachable!(),
    }
}

/// The constant node of a symbol. T and NIL are Booleans.
fn constant_symbol<B: Bits>(objs: &mut Sobs<B>, t: TextId) -> Result<Sob, Full>
    requires whole { IsWhole B.Meaning objs.old }
    ensures makes { Makes B.Meaning objs.old objs.new result (λ a. object_of_kind (kind.Symbol t)) }
    ensures constant { IfOk result (λ r. is_constant B.Meaning objs.new r ≡ true) }
    ensures full { OnErr result (length objs.new.nodes ≡ objs.new.limit) }
    ensures store { objs.new.store ≡ objs.old.store }
{
    if t.number > 1 {
        return objs.add(Node::Symbol(t));
    }
    let e = objs.constant_edge(t.number == 1);
    objs.boolean(e)
}

/// The constant node of an integer.
fn constant_integer<B: Bits>(objs: &mut Sobs<B>, i: i128) -> Result<Sob, Full>
    requires whole { IsWhole B.Meaning objs.old }
    ensures makes { Makes B.Meaning objs.old objs.new result (λ a. object_of_kind (kind.Int i)) }
    ensures constant { IfOk result (λ r. is_constant B.Meaning objs.new r ≡ true) }
    ensures full { OnErr result (length objs.new.nodes ≡ objs.new.limit) }
    ensures store { objs.new.store ≡ objs.old.store }
{
    let bits = bits_of_integer(objs, i);
    objs.integer(&bits)
}

/// Hands a constant node to the frame on top.
fn give<B: Bits>(
    objs: &mut Sobs<B>,
    arena: &HonsArena,
    frame: Frame<Id, Sob>,
    id: Id,
    value: Sob,
    memo: &mut Memo<Sob>,
    frames: &mut Stack<Frame<Id, Sob>>,
) -> Result<Focus<Id, Sob>, SobFault>
    requires whole { IsWhole B.Meaning objs.old }
    requires parts { AreConsParts arena.now.objects frame.first frame.second frame.whole }
    requires next { IsNext (IsConstantOf B.Meaning objs.old arena.now.objects) frame.first frame.second frame.found id }
    requires value { IsConstantOf B.Meaning objs.old arena.now.objects id value }
    requires memo { AreRight id_of (IsConstantOf B.Meaning objs.old arena.now.objects) memo.old }
    ensures keeps { Keeps B.Meaning objs.old objs.new }
    ensures store { objs.new.store ≡ objs.old.store }
    ensures turn { IfOk result (λ f. Turns (IsConstantOf B.Meaning objs.old arena.now.objects) (IsConstantOf B.Meaning objs.new arena.now.objects) (AreConsParts arena.now.objects) (AreConsParts arena.now.objects) (IsIdLive arena.now.objects) (size_at arena.now.objects) (frame ∷ frames.old) frames.new (focus.Give id value) f) }
    ensures memo { IfOk result (λ f. AreRight id_of (IsConstantOf B.Meaning objs.new arena.now.objects) memo.new) }
    ensures full { IsErrOf result fault.Full → length objs.new.nodes ≡ objs.new.limit }
{
    // Read for what it tells of the arena: no cell is there twice.
    let _count = arena.count();
    match frame.found {
        None => {
            frames.push(Frame {
                whole: frame.whole,
                first: frame.first,
                second: frame.second,
                found: Some(value),
            })?;
            Ok(Focus::Visit(frame.second))
        }
        Some(first) => {
            let made = objs.pair(first, value)?;
            memo.keep(key_of(frame.whole), made)?;
            Ok(Focus::Give(frame.whole, made))
        }
    }
}
