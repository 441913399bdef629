//! `zp`, whose value and visits are known without a walk of its body.

ghost use Rattle.std.specs.Prelude.{◌≡◌, IsTrue};
ghost use Rattle.gl_logic.specs.Object.{Int};
ghost use Rattle.lisp_eval.specs.Outside.{value_object, IsLiveValue};
ghost use Rattle.lisp_eval.specs.Zero.{IsZp, zp_holds, zp_visits};

use crate::calls::is_memoized;
use crate::value::Value;
use gl_logic::{FnId, World};
use hons_arena::{HonsArena, Kind};

/// The number of `zp` among the ground definitions.
const ZP: u64 = 7;

/// The visits to the body of `zp` on an integer.
pub const ON_INTEGERS: u64 = 7;

/// The visits to the body of `zp` on any other object.
const ON_OTHERS: u64 = 4;

/// What the body of `zp` gives.
#[derive(Clone, Copy)]
pub struct ZeroTest {
    /// Whether it is T.
    pub holds: bool,
    /// How many visits it takes.
    pub visits: u64,
}

/// Whether a function is `zp`, and is opened at each call: it is not memoized.
pub fn is_zp(world: &World, functions: &[u64], f: FnId) -> bool
    ensures { IsTrue result → IsZp world.now.definitions functions.now f.number }
{
    if f.number != ZP {
        return false;
    }
    let count = world.count();
    if f.number >= count || is_memoized(functions, f) {
        return false;
    }
    true
}

/// What the body of `zp` gives of a value: T but on a positive integer.
pub fn zero_test(arena: &HonsArena, x: Value) -> ZeroTest
    requires { IsLiveValue arena.now.objects x }
    ensures holds { result.holds ≡ zp_holds (value_object arena.now.objects x) }
    ensures visits { result.visits ≡ zp_visits (value_object arena.now.objects x) }
{
    match x.kind(arena) {
        Kind::Int(i) => ZeroTest {
            holds: i <= 0,
            visits: ON_INTEGERS,
        },
        _ => ZeroTest {
            holds: true,
            visits: ON_OTHERS,
        },
    }
}

/// Whether `zp` gives T of an integer of 64 bits.
#[inline(always)]
pub fn is_zero(i: i64) -> bool
    ensures { result ≡ zp_holds (Int i) }
{
    i <= 0
}
