//! What an attempt at a term goes by, and what it gives.

ghost use Rattle.std.specs.Prelude.{◌≡◌, ◌<◌, List, Some, length, slice_get};
ghost use Rattle.gl_logic.specs.Environment.{look};
ghost use Rattle.gl_logic.specs.Object.{Object};
ghost use Rattle.lisp_eval.specs.Directs.{scope_env, IsLiveScope};
ghost use Rattle.lisp_eval.specs.Outside.{value_object, local_in, IsLiveValue};
ghost use Rattle.lisp_eval.specs.declared.attempt.Stop.TheVariants as stop;

use crate::bindings::look;
use crate::frame::Binding;
use crate::value::{Local, Value};
use gl_logic::{Names, NoMemory, TextId, World};
use hons_arena::{Full, Id};
use std::alloc::{AllocError, AllocFailed, Global};

/// What an evaluation does not change: a world, the functions whose calls are kept, and where memory comes from.
#[derive(Clone, Copy)]
pub struct Setting<'a> {
    /// The world.
    pub world: &'a World,
    /// The numbers of the functions.
    pub functions: &'a [u64],
    /// Where memory comes from.
    pub alloc: Global,
}

/// The variables that a term may name.
#[derive(Clone, Copy)]
pub enum Scope<'a> {
    /// Those of an environment of ids.
    Outer(&'a [Binding]),
    /// The formals of a definition that was opened at once.
    Inner(&'a [Local]),
}

/// What a term gives at once.
#[derive(Clone, Copy)]
pub struct Found {
    /// Its value.
    pub value: Value,
    /// How many visits are left.
    pub left: u64,
}

/// The values of one to three arguments.
#[derive(Clone, Copy)]
pub struct Given {
    /// That of the first.
    pub first: Value,
    /// That of the second, NIL where there is none.
    pub second: Value,
    /// That of the third, NIL where there is none.
    pub third: Value,
    /// How many visits are left.
    pub left: u64,
}

/// The ids of such values.
#[derive(Clone, Copy)]
pub struct Ids {
    /// That of the first.
    pub first: Id,
    /// That of the second.
    pub second: Id,
    /// That of the third.
    pub third: Id,
}

/// Why a term gives nothing at once.
#[derive(Clone, Copy, Debug, PartialEq, Eq)]
pub enum Stop {
    /// It is not of those that are evaluated at once, or its value is an integer outside 128 bits, or too few visits are left.
    Beyond,
    /// There is no cell left.
    Full,
    /// There is no memory left.
    Memory,
}

impl From<Full> for Stop {
    ghost from_gives = { λ _ e. e ≡ stop.Full };

    fn from(_full: Full) -> Stop {
        Stop::Full
    }
}

impl From<NoMemory> for Stop {
    ghost from_gives = { λ _ e. e ≡ stop.Memory };

    fn from(_error: NoMemory) -> Stop {
        Stop::Memory
    }
}

impl From<AllocError> for Stop {
    ghost from_gives = { λ _ e. e ≡ stop.Memory };

    fn from(_error: AllocError) -> Stop {
        Stop::Memory
    }
}

impl<T: Drop> From<AllocFailed<T>> for Stop {
    ghost from_gives = { λ _ e. e ≡ stop.Memory };

    fn from(_error: AllocFailed<T>) -> Stop {
        Stop::Memory
    }
}

/// NIL, which an argument that is not there is.
pub const NOTHING: Value = Value::Symbol(TextId { number: 0 });

impl<'a> Scope<'a> {
    /// The value of a variable, NIL where it has none.
    pub fn value(self, name: TextId) -> Value
        ensures value { (objects : List Object) → value_object objects result ≡ look (scope_env objects self.entry) name.number }
        ensures live { (objects : List Object) → IsLiveScope objects self.entry → IsLiveValue objects result }
    {
        match self {
            Scope::Outer(env) => Value::of(look(env, name)),
            Scope::Inner(locals) => local_value(locals, name),
        }
    }
}

/// The value of a formal, NIL for any other name.
#[inline(always)]
pub fn local_value(locals: &[Local], name: TextId) -> Value
    ensures { result ≡ local_in locals.now name.number }
{
    for local in locals {
        if local.name.number == name.number {
            return local.value;
        }
    }
    NOTHING
}

/// A formal with its value.
pub fn local(formals: &Names, i: u64, value: Value) -> Local
    requires { i < length formals.now }
    ensures name { slice_get formals.now i ≡ Some result.name.number }
    ensures value { result.value ≡ value }
{
    Local {
        name: *formals.at(i),
        value,
    }
}
