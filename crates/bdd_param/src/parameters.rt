//! The parametrisation of a function.

ghost use Rattle.std.specs.Prelude.{◌≡◌, ◌≢◌, ◌≤◌, ◌↔◌, max, ℕ, Bool, false, IfOk, IsErrOf};
ghost use Rattle.bfr_store.specs.Keeps.{Grows};
ghost use Rattle.bdd_store.specs.Nodes.{IsLive, truth_of};
ghost use Rattle.bdd_store.specs.Tests.{DependsBelow};
ghost use Rattle.bdd_param.specs.declared.fault.ParamFault.TheVariants as fault;
ghost use Rattle.bdd_param.specs.Images.{IsParametrised};
ghost use Rattle.bdd_param.specs.Kept.{AreVariables};

use super::edges::Edges;
use super::fault::ParamFault;
use super::kept::Kept;
use super::walk::{is_never, walk};
use bdd_store::Bdd;
use bfr_store::{Bits, Edge, Meaning};
use std::alloc::Global;

/// A vector of edges, one for each variable below the width, that parametrises a function: at every assignment it is an
/// assignment that makes the function true, and at one that makes the function true it is that assignment.
///
/// Each test of the function is walked once, with one choice of the store for each variable. A choice is made at a variable
/// that stands before all those of its branches, so it makes one node at most: time and nodes are in proportion to the tests
/// times the width at worst. `Empty` exactly where no assignment makes the function true, `Full` only where the store's count
/// stands at its limit. Whatever is answered, live edges stay and keep their truths.
pub fn parametrise(
    alloc: Global,
    store: &mut Bdd,
    hyp: Edge,
    width: u32,
) -> Result<Edges, ParamFault>
    requires live { IsLive store.old hyp }
    requires depends { DependsBelow store.old hyp width }
    ensures grows { Grows ⟦<Bdd as Meaning>⟧ store.old store.new }
    ensures width { width ≤ store.old.width → store.new.width ≡ store.old.width }
    ensures vector { IfOk result (IsParametrised store.new hyp width) }
    ensures empty { IsErrOf result fault.Empty ↔ ((a : ℕ → Bool) → truth_of store.old.nodes hyp a ≡ false) }
    ensures full { IsErrOf result fault.Full → ⟦<Bdd as Meaning>⟧.count_of store.new ≡ ⟦<Bdd as Meaning>⟧.limit_of store.new }
{
    if is_never(store, hyp) {
        return Err(ParamFault::Empty);
    }
    parametrise_open(alloc, store, hyp, width)
}

/// The same for a function that is not always false.
fn parametrise_open(
    alloc: Global,
    store: &mut Bdd,
    hyp: Edge,
    width: u32,
) -> Result<Edges, ParamFault>
    requires live { IsLive store.old hyp }
    requires open { hyp.number ≢ 1 }
    requires depends { DependsBelow store.old hyp width }
    ensures grows { Grows ⟦<Bdd as Meaning>⟧ store.old store.new }
    ensures width { width ≤ store.old.width → store.new.width ≡ store.old.width }
    ensures vector { IfOk result (IsParametrised store.new hyp width) }
    ensures empty { IsErrOf result fault.Empty → ⊥ }
    ensures full { IsErrOf result fault.Full → ⟦<Bdd as Meaning>⟧.count_of store.new ≡ ⟦<Bdd as Meaning>⟧.limit_of store.new }
{
    let first = variables(alloc, store, width)?;
    let mut kept = Kept::new(alloc, width, first, hyp.number as usize + 1)?;
    let place = walk(alloc, store, &mut kept, hyp)?;
    let vector = Edges::copy(alloc, kept.vector(place))?;
    Ok(vector)
}

/// The edges of the variables below a width.
fn variables(alloc: Global, store: &mut Bdd, width: u32) -> Result<Edges, ParamFault>
    ensures grows { Grows ⟦<Bdd as Meaning>⟧ store.old store.new }
    ensures width { store.new.width ≤ max store.old.width width }
    ensures wide { store.old.width ≤ store.new.width }
    ensures variables { IfOk result (AreVariables store.new width) }
    ensures empty { IsErrOf result fault.Empty → ⊥ }
    ensures full { IsErrOf result fault.Full → ⟦<Bdd as Meaning>⟧.count_of store.new ≡ ⟦<Bdd as Meaning>⟧.limit_of store.new }
{
    let mut edges = Edges::new(alloc);
    for k in 0..width {
        let edge = store.var(k)?;
        edges.push(edge)?;
    }
    Ok(edges)
}
