//! The primitives on ids of an arena.

ghost use Rattle.std.specs.Prelude.{◌≡◌, IsTrue};
ghost use Rattle.gl_logic.specs.Object.{Character, boolean_object};
ghost use Rattle.gl_logic.specs.PrimValue.{prim_of, integer_in, natural_in, code_in, character_of};
ghost use Rattle.hons_arena.specs.Ids.{object_at, IsLive, IsIdOf};
ghost use Rattle.lisp_eval.specs.declared.primitives.PrimFault.TheVariants as fault;
ghost use Rattle.lisp_eval.specs.Gives.{is_predicate, IsByteTest, Gives};
ghost use Rattle.lisp_eval.specs.Outside.{value_object, IsLiveValue};

use crate::value::Value;
use gl_logic::{Prim, TextId};
use hons_arena::{Full, HonsArena, Id, Kind};
use int_prims::{apply_int, is_operation, test_int};

/// Why a primitive has no value here.
#[derive(Clone, Copy, Debug, PartialEq, Eq)]
pub enum PrimFault {
    /// The value is an integer outside -2^127 to 2^127 - 1.
    Wide,
    /// The arena has no cell left for the value.
    Full,
}

impl From<Full> for PrimFault {
    ghost from_gives = { λ _ e. e ≡ fault.Full };

    fn from(_full: Full) -> PrimFault {
        PrimFault::Full
    }
}

/// The id of a primitive's value on the objects of two ids. A primitive of one argument takes the first, and any other.
/// Takes no memory.
pub fn primitive(arena: &mut HonsArena, prim: Prim, x: Id, y: Id) -> Result<Id, PrimFault>
    requires x { IsLive arena.old.objects x }
    requires y { IsLive arena.old.objects y }
    ensures { Gives arena.old arena.new (prim_of prim (object_at arena.old.objects x) (object_at arena.old.objects y)) result }
{
    if is_predicate(prim) {
        let holds = predicate(arena, prim, Value::of(x), Value::of(y));
        return Ok(boolean(arena, holds));
    }
    if is_operation(prim) {
        let a = integer_at(arena, x);
        let b = integer_at(arena, y);
        return match apply_int(prim, a, b) {
            Ok(i) => Ok(arena.int(i)?),
            Err(_) => Err(PrimFault::Wide),
        };
    }
    match prim {
        Prim::Cons => Ok(arena.cons(x, y)?),
        Prim::Car => Ok(arena.car(x)),
        Prim::Cdr => Ok(arena.cdr(x)),
        Prim::CharCode => {
            let code = code(arena, Value::of(x));
            Ok(arena.int(i128::from(code))?)
        }
        Prim::CodeChar => {
            let code = character_code(arena, x);
            Ok(arena.character(code)?)
        }
        _ => unreachable!(),
    }
}

/// The integer that an object counts as: 0 where it is none.
fn integer_at(arena: &HonsArena, id: Id) -> i128
    requires { IsLive arena.now.objects id }
    ensures { result ≡ integer_in (object_at arena.now.objects id) }
{
    Value::of(id).integer(arena)
}

/// T or NIL.
pub fn boolean(arena: &HonsArena, b: bool) -> Id
    ensures { IsIdOf arena.now.objects (boolean_object b) result }
{
    arena.symbol(TextId {
        number: if b { 1 } else { 0 },
    })
}

/// Whether a primitive's value is always T or NIL.
pub fn is_predicate(prim: Prim) -> bool
    ensures { result ≡ is_predicate prim }
{
    matches!(
        prim,
        Prim::Consp
            | Prim::Integerp
            | Prim::Symbolp
            | Prim::Stringp
            | Prim::Characterp
            | Prim::Equal
            | Prim::Not
            | Prim::Less
            | Prim::Logbitp
            | Prim::UnsignedByteP
            | Prim::SignedByteP
    )
}

/// Whether a predicate holds.
pub fn predicate(arena: &HonsArena, prim: Prim, x: Value, y: Value) -> bool
    requires prim { IsTrue (is_predicate prim) }
    requires x { IsLiveValue arena.now.objects x }
    requires y { IsLiveValue arena.now.objects y }
    ensures { prim_of prim (value_object arena.now.objects x) (value_object arena.now.objects y) ≡ boolean_object result }
{
    match prim {
        Prim::Consp => matches!(x.kind(arena), Kind::Cons),
        Prim::Integerp => matches!(x.kind(arena), Kind::Int(_)),
        Prim::Symbolp => matches!(x.kind(arena), Kind::Symbol(_)),
        Prim::Stringp => matches!(x.kind(arena), Kind::Text(_)),
        Prim::Characterp => matches!(x.kind(arena), Kind::Character(_)),
        Prim::Equal => x.same(y, arena),
        Prim::Not => x.is_nil(arena),
        Prim::Less => test_int(Prim::Less, x.integer(arena), y.integer(arena)),
        Prim::Logbitp => test_int(Prim::Logbitp, x.integer(arena), y.integer(arena)),
        Prim::UnsignedByteP => both_integers(arena, Prim::UnsignedByteP, x, y),
        Prim::SignedByteP => both_integers(arena, Prim::SignedByteP, x, y),
        _ => unreachable!(),
    }
}

/// A test of two integers, false where either object is none.
fn both_integers(arena: &HonsArena, prim: Prim, x: Value, y: Value) -> bool
    requires prim { IsByteTest prim }
    requires x { IsLiveValue arena.now.objects x }
    requires y { IsLiveValue arena.now.objects y }
    ensures { prim_of prim (value_object arena.now.objects x) (value_object arena.now.objects y) ≡ boolean_object result }
{
    match (x.kind(arena), y.kind(arena)) {
        (Kind::Int(a), Kind::Int(b)) => test_int(prim, a, b),
        _ => false,
    }
}

/// The code of a character, 0 for any other object.
pub fn code(arena: &HonsArena, x: Value) -> u8
    requires { IsLiveValue arena.now.objects x }
    ensures { result ≡ code_in (value_object arena.now.objects x) }
{
    match x.kind(arena) {
        Kind::Character(code) => code,
        _ => 0,
    }
}

/// The character code that an object counts as: that number where it is an integer from 0 to 255, and else 0.
fn character_code(arena: &HonsArena, x: Id) -> u8
    requires { IsLive arena.now.objects x }
    ensures { Character result ≡ character_of (natural_in (object_at arena.now.objects x)) }
{
    match arena.kind(x) {
        Kind::Int(i) => u8::try_from(i).unwrap_or(0),
        _ => 0,
    }
}
