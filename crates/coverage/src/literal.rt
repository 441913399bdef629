//! Literals, and what they are to be.

ghost use Rattle.std.specs.Prelude.{◌≡◌, ◌<◌, ◌-◌, ◌^◌, pos};
ghost use Rattle.gl_logic.specs.Bytes.{is_signed_byte};
ghost use Rattle.gl_logic.specs.Object.{Int};
ghost use Rattle.gl_logic.specs.ObjectEq.{object_eq};
ghost use Rattle.gl_logic.specs.TermOf.{term_of};
ghost use Rattle.coverage.specs.Forms.{is_literal};
ghost use Rattle.coverage.specs.Rows.{is_width_in, is_boolean, is_integer_of, is_from, is_to, are_all};
ghost use Rattle.coverage.specs.Heads.{wanted_of};

use gl_logic::{Term, Tree, TreeKind};

/// What a literal is to be.
#[derive(Drop)]
pub(crate) enum Wanted<'a> {
    /// T or NIL.
    Boolean,
    /// An integer of so many bits, the sign among them.
    Integer(usize),
    /// This object.
    Same(&'a Tree),
    /// This number.
    Number(u64),
    /// From the first number on, one of as many as the second.
    Width(usize, usize),
    /// At least the least integer of so many bits.
    From(usize),
    /// The same of the next integer.
    Above(usize),
    /// At most the greatest integer of so many bits.
    To(usize),
    /// The same of the integer before.
    Below(usize),
    /// A proper list of T and NIL.
    Booleans,
    /// A proper list of integers of so many bits.
    Integers(usize),
}

/// Whether a term is a literal that is wanted.
pub(crate) fn is_literal(wanted: &Wanted, term: &Term) -> bool
    ensures { result ≡ is_literal (wanted_of wanted.now) (term_of term.now) }
{
    match term {
        Term::Const(object) => is_wanted(wanted, object),
        _ => false,
    }
}

fn is_wanted(wanted: &Wanted, object: &Tree) -> bool
    ensures { result ≡ wanted_of wanted.now object.now }
{
    match wanted {
        Wanted::Boolean => is_boolean(object),
        Wanted::Same(other) => are_same(other, object),
        Wanted::Booleans => are_booleans(object),
        Wanted::Integers(count) => are_integers(*count, object),
        Wanted::Number(number) => match object.kind() {
            TreeKind::Int(i) => i == *number as i128,
            _ => false,
        },
        Wanted::Width(least, count) => match object.kind() {
            TreeKind::Int(i) => is_width(i, *least, *count),
            _ => false,
        },
        Wanted::Integer(count) => is_integer_of(*count, object),
        Wanted::From(count) => match object.kind() {
            TreeKind::Int(i) => is_from(*count, i),
            _ => false,
        },
        Wanted::Above(count) => match object.kind() {
            TreeKind::Int(i) => i == i128::MAX || is_from(*count, i + 1),
            _ => false,
        },
        Wanted::To(count) => match object.kind() {
            TreeKind::Int(i) => is_to(*count, i),
            _ => false,
        },
        Wanted::Below(count) => match object.kind() {
            TreeKind::Int(i) => i == i128::MIN || is_to(*count, i - 1),
            _ => false,
        },
    }
}

/// Whether an object is a proper list of T and NIL.
fn are_booleans(object: &Tree) -> bool
    ensures { result ≡ are_all is_boolean object.now }
{
    for element in object.elements() {
        if !is_boolean(element) {
            return false;
        }
    }
    object.tail().is_nil()
}

/// Whether an object is a proper list of integers of so many bits.
fn are_integers(count: usize, object: &Tree) -> bool
    ensures { result ≡ are_all (is_integer_of count) object.now }
{
    for element in object.elements() {
        if !is_integer_of(count, element) {
            return false;
        }
    }
    object.tail().is_nil()
}

/// Whether an object is an integer of so many bits, the sign among them.
fn is_integer_of(count: usize, object: &Tree) -> bool
    ensures { result ≡ is_integer_of count object.now }
{
    match object.kind() {
        TreeKind::Int(i) => has_bits(count, i),
        _ => false,
    }
}

/// T or NIL.
fn is_boolean(object: &Tree) -> bool
    ensures { result ≡ is_boolean object.now }
{
    match object.kind() {
        TreeKind::Symbol(name) => name.number == 1 || name.number == 0,
        _ => false,
    }
}

fn are_same(first: &Tree, second: &Tree) -> bool
    ensures { result ≡ object_eq first.now second.now }
{
    first.same(second)
}

/// Whether an integer is one of `count` natural numbers from `least` on.
fn is_width(i: i128, least: usize, count: usize) -> bool
    ensures { result ≡ is_width_in least count (Int i) }
{
    least as i128 <= i && i < count as i128 + least as i128
}

fn has_bits(count: usize, i: i128) -> bool
    ensures { result ≡ is_signed_byte (pos count) i }
{
    if count == 0 {
        false
    } else if count >= 128 {
        true
    } else {
        let bound = power((count - 1) as u32);
        -bound <= i && i < bound
    }
}

fn is_from(count: usize, i: i128) -> bool
    ensures { result ≡ is_from count i }
{
    if count >= 128 {
        true
    } else {
        -power(beside_sign(count)) <= i
    }
}

fn is_to(count: usize, i: i128) -> bool
    ensures { result ≡ is_to count i }
{
    if count >= 128 {
        true
    } else {
        i < power(beside_sign(count))
    }
}

/// How many of so many bits stand beside the sign.
fn beside_sign(count: usize) -> u32
    requires { count < 128 }
    ensures exact { result ≡ count - 1 }
    ensures few { result < 127 }
{
    if count == 0 { 0 } else { (count - 1) as u32 }
}

/// 2 ^ places
fn power(places: u32) -> i128
    requires { places < 127 }
    ensures { result ≡ pos (2 ^ places) }
{
    1i128 << places
}
