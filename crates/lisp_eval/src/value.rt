//! Values that may stand outside the arena.

ghost use Rattle.std.specs.Prelude.{◌≡◌, ◌<◌, ◌↔◌, FitsSigned, List, IfSome, IsSome, length};
ghost use Rattle.std.specs.Int.{w64};
ghost use Rattle.gl_logic.specs.Object.{Object, Int, Cons, boolean_object, car, cdr};
ghost use Rattle.gl_logic.specs.ObjectEq.{object_eq, is_nil};
ghost use Rattle.gl_logic.specs.PrimValue.{integer_in};
ghost use Rattle.hons_arena.specs.Held.{IsWhole, Places};
ghost use Rattle.hons_arena.specs.Ids.{object_at, kind_of, IsLive};
ghost use Rattle.lisp_eval.specs.Outside.{value_object, IsLiveValue};

use crate::bindings::NIL;
use gl_logic::TextId;
use hons_arena::{Full, HonsArena, Id, Kind};

/// A value: an integer that needs no cell, or what the id of an object tells. Each kind has one word, so that values are
/// copied as words.
#[derive(Clone, Copy)]
pub enum Value {
    /// This integer.
    Int(i64),
    /// The object of the cell of this number.
    Cell(u64),
    /// This symbol.
    Symbol(TextId),
    /// This string.
    Text(TextId),
}

/// A variable with its value.
#[derive(Clone, Copy)]
pub struct Local {
    /// The variable.
    pub name: TextId,
    /// Its value.
    pub value: Value,
}

impl Value {
    /// The object of an id.
    pub fn of(id: Id) -> Value
        ensures value { (objects : List Object) → value_object objects result ≡ object_at objects id }
        ensures live { (objects : List Object) → IsLive objects id → IsLiveValue objects result }
    {
        match id {
            Id::Cell(number) => Value::Cell(number),
            Id::Symbol(t) => Value::Symbol(t),
            Id::Text(t) => Value::Text(t),
        }
    }

    /// An integer, exactly where it is of 64 bits.
    pub fn small(i: i128) -> Option<Value>
        ensures some { IsSome result ↔ FitsSigned w64 i }
        ensures value { IfSome result (λ v. (objects : List Object) → value_object objects v ≡ Int i) }
        ensures live { IfSome result (λ v. (objects : List Object) → IsLiveValue objects v) }
    {
        match i64::try_from(i) {
            Ok(small) => Some(Value::Int(small)),
            Err(_) => None,
        }
    }

    /// T or NIL.
    pub fn truth(holds: bool) -> Value
        ensures value { (objects : List Object) → value_object objects result ≡ boolean_object holds }
        ensures live { (objects : List Object) → IsLiveValue objects result }
    {
        Value::Symbol(TextId {
            number: if holds { 1 } else { 0 },
        })
    }

    /// What a value is.
    pub fn kind(self, arena: &HonsArena) -> Kind
        requires { IsLiveValue arena.now.objects self }
        ensures { result ≡ kind_of (value_object arena.now.objects self) }
    {
        match self {
            Value::Int(i) => Kind::Int(i128::from(i)),
            Value::Cell(number) => arena.kind(Id::Cell(number)),
            Value::Symbol(t) => Kind::Symbol(t),
            Value::Text(t) => Kind::Text(t),
        }
    }

    /// The integer that a value counts as: 0 where it is none.
    pub fn integer(self, arena: &HonsArena) -> i128
        requires { IsLiveValue arena.now.objects self }
        ensures { result ≡ integer_in (value_object arena.now.objects self) }
    {
        match self {
            Value::Int(i) => i128::from(i),
            Value::Cell(number) => integer_of(arena, number),
            Value::Symbol(_) => 0,
            Value::Text(_) => 0,
        }
    }

    /// Whether a value is NIL.
    pub fn is_nil(self, arena: &HonsArena) -> bool
        requires { IsLiveValue arena.now.objects self }
        ensures { result ≡ is_nil (value_object arena.now.objects self) }
    {
        match self {
            Value::Int(_) => false,
            Value::Cell(number) => is_nil_cell(arena, number),
            Value::Symbol(t) => t.number == 0,
            Value::Text(_) => false,
        }
    }

    /// An id of an object with the same parts: of an integer, which has none, that of NIL.
    pub fn with_parts(self) -> Id
        ensures live { (objects : List Object) → IsLiveValue objects self → IsLive objects result }
        ensures first { (objects : List Object) → car (object_at objects result) ≡ car (value_object objects self) }
        ensures rest { (objects : List Object) → cdr (object_at objects result) ≡ cdr (value_object objects self) }
    {
        match self {
            Value::Int(_) => NIL,
            Value::Cell(number) => Id::Cell(number),
            Value::Symbol(t) => Id::Symbol(t),
            Value::Text(t) => Id::Text(t),
        }
    }

    /// The id of a value. An integer takes a cell where it has none; Full only where there is none left.
    pub fn enter(self, arena: &mut HonsArena) -> Result<Id, Full>
        requires whole { IsWhole arena.old }
        requires live { IsLiveValue arena.old.objects self }
        ensures places { Places arena.old arena.new (value_object arena.old.objects self) result }
        ensures whole { IsWhole arena.new }
    {
        match self {
            Value::Int(i) => integer_id(arena, i128::from(i)),
            Value::Cell(number) => Ok(Id::Cell(number)),
            Value::Symbol(t) => Ok(Id::Symbol(t)),
            Value::Text(t) => Ok(Id::Text(t)),
        }
    }

    /// Whether two values are equal.
    pub fn same(self, other: Value, arena: &HonsArena) -> bool
        requires x { IsLiveValue arena.now.objects self }
        requires y { IsLiveValue arena.now.objects other }
        ensures { result ≡ object_eq (value_object arena.now.objects self) (value_object arena.now.objects other) }
    {
        match self {
            Value::Int(i) => is_integer(arena, other, i128::from(i)),
            Value::Cell(number) => is_held(arena, other, Id::Cell(number)),
            Value::Symbol(t) => is_held(arena, other, Id::Symbol(t)),
            Value::Text(t) => is_held(arena, other, Id::Text(t)),
        }
    }
}

/// The id of the cons of two values. Each integer of them takes a cell where it has none, and so does the cons; Full only
/// where there is none left.
pub fn cons(arena: &mut HonsArena, first: Value, rest: Value) -> Result<Id, Full>
    requires whole { IsWhole arena.old }
    requires first { IsLiveValue arena.old.objects first }
    requires rest { IsLiveValue arena.old.objects rest }
    ensures places { Places arena.old arena.new (Cons (value_object arena.old.objects first) (value_object arena.old.objects rest)) result }
    ensures whole { IsWhole arena.new }
{
    let a = first.enter(arena)?;
    let d = rest.enter(arena)?;
    arena.cons(a, d)
}

/// Whether two ids are of equal objects.
fn same_ids(arena: &HonsArena, a: Id, b: Id) -> bool
    requires x { IsLive arena.now.objects a }
    requires y { IsLive arena.now.objects b }
    ensures { result ≡ object_eq (object_at arena.now.objects a) (object_at arena.now.objects b) }
{
    arena.same(a, b)
}

/// Whether a value is the object of this id.
fn is_held(arena: &HonsArena, value: Value, id: Id) -> bool
    requires value { IsLiveValue arena.now.objects value }
    requires id { IsLive arena.now.objects id }
    ensures { result ≡ object_eq (object_at arena.now.objects id) (value_object arena.now.objects value) }
{
    match value {
        Value::Int(i) => is_integer_at(arena, id, i128::from(i)),
        Value::Cell(number) => same_ids(arena, id, Id::Cell(number)),
        Value::Symbol(t) => same_ids(arena, id, Id::Symbol(t)),
        Value::Text(t) => same_ids(arena, id, Id::Text(t)),
    }
}

/// Whether a value is this integer.
fn is_integer(arena: &HonsArena, value: Value, i: i128) -> bool
    requires { IsLiveValue arena.now.objects value }
    ensures { result ≡ object_eq (Int i) (value_object arena.now.objects value) }
{
    match value {
        Value::Int(j) => i == i128::from(j),
        Value::Cell(number) => is_integer_at(arena, Id::Cell(number), i),
        Value::Symbol(_) => false,
        Value::Text(_) => false,
    }
}

/// Whether the object of an id is this integer.
fn is_integer_at(arena: &HonsArena, id: Id, i: i128) -> bool
    requires { IsLive arena.now.objects id }
    ensures first { result ≡ object_eq (Int i) (object_at arena.now.objects id) }
    ensures second { result ≡ object_eq (object_at arena.now.objects id) (Int i) }
{
    match arena.kind(id) {
        Kind::Int(j) => i == j,
        _ => false,
    }
}

/// Whether a cell's object is NIL.
fn is_nil_cell(arena: &HonsArena, number: u64) -> bool
    requires { number < length arena.now.objects }
    ensures { result ≡ is_nil (object_at arena.now.objects (Id.Cell number)) }
{
    match arena.kind(Id::Cell(number)) {
        Kind::Symbol(t) => t.number == 0,
        _ => false,
    }
}

/// The integer that a cell's object counts as: 0 where it is none.
fn integer_of(arena: &HonsArena, number: u64) -> i128
    requires { number < length arena.now.objects }
    ensures { result ≡ integer_in (object_at arena.now.objects (Id.Cell number)) }
{
    match arena.kind(Id::Cell(number)) {
        Kind::Int(i) => i,
        _ => 0,
    }
}

/// The id of an integer, which takes a cell where it has none; Full only where there is none left.
pub fn integer_id(arena: &mut HonsArena, i: i128) -> Result<Id, Full>
    requires { IsWhole arena.old }
    ensures places { Places arena.old arena.new (Int i) result }
    ensures whole { IsWhole arena.new }
{
    arena.int(i)
}
