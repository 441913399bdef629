//! Conses and their parts.

ghost use Rattle.std.specs.Prelude.{◌≡◌, ℕ, Bool};
ghost use Rattle.gl_logic.specs.Object.{Cons, nil, car, cdr};
ghost use Rattle.sym_objects.specs.Seen.{IsLive, IsWhole, stands_for};
ghost use Rattle.sym_prims.specs.Applying.{Gives};
ghost use Rattle.sym_prims.specs.Seeing.{IsSimpleIn};

use super::answers::lift;
use super::fault::SymFault;
use super::kinds::cons_of;
use super::store_calls::constant_edge;
use bfr_store::Bits;
use sym_objects::{Sob, Sobs};

/// The cons of two objects.
pub fn cons<B: Bits>(objs: &mut Sobs<B>, x: Sob, y: Sob) -> Result<Sob, SymFault>
    requires whole { IsWhole B.Meaning objs.old }
    requires x { IsLive objs.old x }
    requires y { IsLive objs.old y }
    ensures gives { Gives B.Meaning objs.old objs.new result (λ a. Cons (stands_for B.Meaning objs.old x a) (stands_for B.Meaning objs.old y a)) }
{
    lift(objs.pair(x, y))
}

/// NIL.
fn nil<B: Bits>(objs: &mut Sobs<B>) -> Result<Sob, SymFault>
    requires whole { IsWhole B.Meaning objs.old }
    ensures gives { Gives B.Meaning objs.old objs.new result (λ a. nil) }
{
    let never = constant_edge(objs, false);
    lift(objs.boolean(never))
}

/// The first part of a cons, and NIL of any other object that is no choice.
pub fn car<B: Bits>(objs: &mut Sobs<B>, x: Sob) -> Result<Sob, SymFault>
    requires whole { IsWhole B.Meaning objs.old }
    requires live { IsLive objs.old x }
    requires simple { IsSimpleIn objs.old x }
    ensures gives { Gives B.Meaning objs.old objs.new result (λ a. car (stands_for B.Meaning objs.old x a)) }
{
    let node = objs.node_of(x);
    match cons_of(node) {
        Some(parts) => Ok(parts.car),
        None => nil(objs),
    }
}

/// The second part of a cons, and NIL of any other object that is no choice.
pub fn cdr<B: Bits>(objs: &mut Sobs<B>, x: Sob) -> Result<Sob, SymFault>
    requires whole { IsWhole B.Meaning objs.old }
    requires live { IsLive objs.old x }
    requires simple { IsSimpleIn objs.old x }
    ensures gives { Gives B.Meaning objs.old objs.new result (λ a. cdr (stands_for B.Meaning objs.old x a)) }
{
    let node = objs.node_of(x);
    match cons_of(node) {
        Some(parts) => Ok(parts.cdr),
        None => nil(objs),
    }
}
