//! Calls of the bit store between those of the table, through the reference that the table lends.

ghost use Rattle.std.specs.Prelude.{cond, OnErr, ◌≡◌};
ghost use Rattle.sym_objects.specs.Makes.{MakesEdge};
ghost use Rattle.sym_objects.specs.Seen.{IsWhole};

use super::sobs::Sobs;
use bfr_store::{Bits, Edge, Full};

/// The function that is `x` where `t` is true, and `y` elsewhere.
pub(crate) fn choose_edge<B: Bits>(
    objs: &mut Sobs<B>,
    t: Edge,
    x: Edge,
    y: Edge,
) -> Result<Edge, Full>
    requires whole { IsWhole B.Meaning objs.old }
    requires t { B.live objs.old.store t }
    requires x { B.live objs.old.store x }
    requires y { B.live objs.old.store y }
    ensures makes { MakesEdge B.Meaning objs.old objs.new result (λ a. cond (B.truth_of objs.old.store t a) (B.truth_of objs.old.store x a) (B.truth_of objs.old.store y a)) }
    ensures full { OnErr result (B.count_of objs.new.store ≡ B.limit_of objs.new.store) }
    ensures nodes { objs.new.nodes ≡ objs.old.nodes }
{
    objs.store().ite(t, x, y)
}
