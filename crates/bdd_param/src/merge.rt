//! A vector out of two.

ghost use Rattle.std.specs.Prelude.{◌≡◌, length, All, IfOk, IsErrOf};
ghost use Rattle.bfr_store.specs.Keeps.{Keeps};
ghost use Rattle.bdd_store.specs.Nodes.{IsLive};
ghost use Rattle.bdd_param.specs.declared.fault.ParamFault.TheVariants as fault;
ghost use Rattle.bdd_param.specs.Merged.{IsMerged};

use super::edges::Edges;
use super::fault::ParamFault;
use bdd_store::Bdd;
use bfr_store::{Bits, Edge, Meaning};
use std::alloc::Global;

/// The vector whose edges are the high ones where the test is true, and the low ones elsewhere. `Full` only where the store's
/// count stands at its limit.
pub(crate) fn merged(
    alloc: Global,
    store: &mut Bdd,
    test: Edge,
    high: &[Edge],
    low: &[Edge],
) -> Result<Edges, ParamFault>
    requires test { IsLive store.old test }
    requires high { All (IsLive store.old) high.now }
    requires low { All (IsLive store.old) low.now }
    requires count { length low.now ≡ length high.now }
    ensures keeps { Keeps ⟦<Bdd as Meaning>⟧ store.old store.new }
    ensures merged { IfOk result (λ v. IsMerged store.old store.new test high.now low.now v (length high.now)) }
    ensures empty { IsErrOf result fault.Empty → ⊥ }
    ensures full { IsErrOf result fault.Full → ⟦<Bdd as Meaning>⟧.count_of store.new ≡ ⟦<Bdd as Meaning>⟧.limit_of store.new }
{
    let mut edges = Edges::new(alloc);
    for k in 0..high.len() {
        let edge = store.ite(test, high[k], low[k])?;
        edges.push(edge)?;
    }
    Ok(edges)
}
