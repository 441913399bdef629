//! The primitives whose value is T or NIL, on nodes that are no choices.

ghost use Rattle.std.specs.Prelude.{◌≡◌, ℕ, Bool, true, not, IsTrue};
ghost use Rattle.bfr_store.specs.Edges.{xor};
ghost use Rattle.gl_logic.specs.ObjectEq.{object_eq, is_nil};
ghost use Rattle.gl_logic.specs.PrimValue.{integer_in};
ghost use Rattle.gl_logic.specs.declared.prim.Primitive.TheVariants as primitive;
ghost use Rattle.int_prims.specs.Integers.{is_test};
ghost use Rattle.sym_objects.specs.declared.sob.SobNode.TheVariants as kind;
ghost use Rattle.sym_objects.specs.Nodes.{kind_of, node_at};
ghost use Rattle.sym_objects.specs.Seen.{IsLive, IsWhole, stands_for};
ghost use Rattle.sym_prims.specs.Applying.{Tells};
ghost use Rattle.sym_prims.specs.Results.{IsByteTest, IsNumberTest, holds, is_predicate, test_result};
ghost use Rattle.sym_prims.specs.Seeing.{IsOfParts, IsSimple, IsSimpleIn, takes_two, is_kind_test};

use super::kinds::{is_integer_node, is_of_kind, pairing_of, truth_of};
use super::nodes::Pairing;
use super::numbers::integer_bits;
use super::store_calls::{complement, constant_edge, difference};
use super::tests_of_integers::test;
use bfr_store::{Bits, Edge, Full};
use gl_logic::Prim;
use sym_bits::same;
use sym_objects::{Sob, Sobs};

/// Whether a primitive's value is always T or NIL.
pub fn is_predicate(prim: Prim) -> bool
    ensures { result ≡ is_predicate prim }
{
    matches!(
        prim,
        Prim::Consp
            | Prim::Integerp
            | Prim::Symbolp
            | Prim::Stringp
            | Prim::Characterp
            | Prim::Equal
            | Prim::Not
            | Prim::Less
            | Prim::Logbitp
            | Prim::UnsignedByteP
            | Prim::SignedByteP
    )
}

/// A test of two integers, each 0 where the object is none.
fn test_numbers<B: Bits>(objs: &mut Sobs<B>, prim: Prim, x: Sob, y: Sob) -> Result<Edge, Full>
    requires prim { IsTrue (is_test prim) }
    requires whole { IsWhole B.Meaning objs.old }
    requires x { IsLive objs.old x }
    requires y { IsLive objs.old y }
    requires simple_x { IsSimpleIn objs.old x }
    requires simple_y { IsSimpleIn objs.old y }
    ensures tells { Tells B.Meaning objs.old objs.new result (λ a. test_result prim (integer_in (stands_for B.Meaning objs.old x a)) (integer_in (stands_for B.Meaning objs.old y a))) }
{
    let first = integer_bits(objs, x);
    let second = integer_bits(objs, y);
    test(objs.store(), prim, &first, &second)
}

/// A test of a width and an integer, false where either object is none.
fn test_bytes<B: Bits>(objs: &mut Sobs<B>, prim: Prim, x: Sob, y: Sob) -> Result<Edge, Full>
    requires prim { IsByteTest prim }
    requires whole { IsWhole B.Meaning objs.old }
    requires x { IsLive objs.old x }
    requires y { IsLive objs.old y }
    requires simple_x { IsSimpleIn objs.old x }
    requires simple_y { IsSimpleIn objs.old y }
    ensures tells { Tells B.Meaning objs.old objs.new result (λ a. holds prim (stands_for B.Meaning objs.old x a) (stands_for B.Meaning objs.old y a)) }
{
    let (first, second) = (objs.node_of(x), objs.node_of(y));
    if is_integer_node(first) && is_integer_node(second) {
        return test_numbers(objs, prim, x, y);
    }
    Ok(constant_edge(objs, false))
}

/// Whether two integers are equal.
fn equal_integers<B: Bits>(objs: &mut Sobs<B>, x: Sob, y: Sob) -> Result<Edge, Full>
    requires whole { IsWhole B.Meaning objs.old }
    requires x { IsLive objs.old x }
    requires y { IsLive objs.old y }
    requires first { kind_of (node_at objs.old.nodes x) ≡ kind.Integer }
    requires second { kind_of (node_at objs.old.nodes y) ≡ kind.Integer }
    ensures tells { Tells B.Meaning objs.old objs.new result (λ a. object_eq (stands_for B.Meaning objs.old x a) (stands_for B.Meaning objs.old y a)) }
{
    let (first, second) = (objs.bits_of(x), objs.bits_of(y));
    same(objs.store(), &first, &second)
}

/// Whether two Booleans are equal.
fn equal_booleans<B: Bits>(objs: &mut Sobs<B>, e: Edge, f: Edge) -> Result<Edge, Full>
    requires whole { IsWhole B.Meaning objs.old }
    requires first { B.live objs.old.store e }
    requires second { B.live objs.old.store f }
    ensures tells { Tells B.Meaning objs.old objs.new result (λ a. not (xor (B.truth_of objs.old.store e a) (B.truth_of objs.old.store f a))) }
{
    let differs = difference(objs, e, f)?;
    Ok(complement(objs, differs))
}

/// Whether two objects that are not both conses are equal.
fn equal<B: Bits>(objs: &mut Sobs<B>, x: Sob, y: Sob) -> Result<Edge, Full>
    requires whole { IsWhole B.Meaning objs.old }
    requires x { IsLive objs.old x }
    requires y { IsLive objs.old y }
    requires simple_x { IsSimpleIn objs.old x }
    requires simple_y { IsSimpleIn objs.old y }
    requires apart { IsOfParts primitive.Equal (kind_of (node_at objs.old.nodes x)) (kind_of (node_at objs.old.nodes y)) → ⊥ }
    ensures tells { Tells B.Meaning objs.old objs.new result (λ a. object_eq (stands_for B.Meaning objs.old x a) (stands_for B.Meaning objs.old y a)) }
{
    let (first, second) = (objs.node_of(x), objs.node_of(y));
    match pairing_of(first, second) {
        Pairing::Integers => equal_integers(objs, x, y),
        Pairing::Booleans(e, f) => equal_booleans(objs, e, f),
        Pairing::Always(b) => Ok(constant_edge(objs, b)),
    }
}

/// Whether an object is NIL.
fn is_nil<B: Bits>(objs: &mut Sobs<B>, x: Sob) -> Edge
    requires whole { IsWhole B.Meaning objs.old }
    requires x { IsLive objs.old x }
    requires simple_x { IsSimpleIn objs.old x }
    ensures same { objs.new ≡ objs.old }
    ensures live { B.live objs.old.store result }
    ensures truth { (a : ℕ → Bool) → B.truth_of objs.old.store result a ≡ is_nil (stands_for B.Meaning objs.old x a) }
{
    let node = objs.node_of(x);
    match truth_of(node) {
        Some(e) => complement(objs, e),
        None => constant_edge(objs, false),
    }
}

/// The function that is true where a predicate holds.
pub fn predicate<B: Bits>(objs: &mut Sobs<B>, prim: Prim, x: Sob, y: Sob) -> Result<Edge, Full>
    requires prim { is_predicate prim ≡ true }
    requires whole { IsWhole B.Meaning objs.old }
    requires x { IsLive objs.old x }
    requires y { IsLive objs.old y }
    requires simple_x { IsSimpleIn objs.old x }
    requires simple_y { takes_two prim ≡ true → IsSimpleIn objs.old y }
    requires apart { IsOfParts prim (kind_of (node_at objs.old.nodes x)) (kind_of (node_at objs.old.nodes y)) → ⊥ }
    ensures tells { Tells B.Meaning objs.old objs.new result (λ a. holds prim (stands_for B.Meaning objs.old x a) (stands_for B.Meaning objs.old y a)) }
{
    match prim {
        Prim::Equal => equal(objs, x, y),
        Prim::Not => Ok(is_nil(objs, x)),
        Prim::Less | Prim::Logbitp => test_numbers(objs, prim, x, y),
        Prim::UnsignedByteP | Prim::SignedByteP => test_bytes(objs, prim, x, y),
        _ => {
            let node = objs.node_of(x);
            Ok(constant_edge(objs, is_of_kind(prim, node)))
        }
    }
}
