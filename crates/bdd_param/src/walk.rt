//! The walk over a function's tests.

ghost use Rattle.std.specs.Prelude.{◌≡◌, ◌≢◌, ◌<◌, ℕ, Bool, true, false, length, IfOk, OnOk, IsErrOf};
ghost use Rattle.bfr_store.specs.Edges.{node_of};
ghost use Rattle.bfr_store.specs.Keeps.{Keeps};
ghost use Rattle.bdd_store.specs.Nodes.{IsLive, truth_of};
ghost use Rattle.bdd_store.specs.Tests.{DependsBelow, IsTest};
ghost use Rattle.bdd_param.specs.declared.fault.ParamFault.TheVariants as fault;
ghost use Rattle.bdd_param.specs.Images.{IsParametrised};
ghost use Rattle.bdd_param.specs.Kept.{Adds, IsAt, IsKept, IsTestFor};
ghost use Rattle.bfr_store.specs.declared.edge.Edge.{Edge};

use super::edges::Edges;
use super::fault::ParamFault;
use super::kept::Kept;
use super::merge::merged;
use bdd_store::{Bdd, Test};
use bfr_store::{Bits, Edge, Meaning};
use std::alloc::Global;

/// The constant edge, in a store that stays.
fn constant(store: &Bdd, b: bool) -> Edge
    ensures live { IsLive store.now result }
    ensures truth { (a : ℕ → Bool) → truth_of store.now.nodes result a ≡ b }
{
    store.constant(b)
}

/// Whether the function is never true.
pub(crate) fn is_never(store: &Bdd, e: Edge) -> bool
    requires { IsLive store.now e }
    ensures never { result ≡ true → (a : ℕ → Bool) → truth_of store.now.nodes e a ≡ false }
    ensures zero { result ≡ true → e.number ≡ 1 }
    ensures open { result ≡ false → e.number ≢ 1 }
    ensures some { result ≡ false → ((a : ℕ → Bool) → truth_of store.now.nodes e a ≡ false) → ⊥ }
{
    let zero = store.constant(false);
    e.number == zero.number
}

/// The place of a vector that parametrises a function, which is not always false.
#[cycle(walk)]
pub(crate) fn walk(
    alloc: Global,
    store: &mut Bdd,
    kept: &mut Kept,
    e: Edge,
) -> Result<u32, ParamFault>
    requires live { IsLive store.old e }
    requires open { e.number ≢ 1 }
    requires depends { DependsBelow store.old e kept.old.width }
    requires place { e.number < length kept.old.places }
    requires kept { IsKept store.old kept.old }
    ensures keeps { Keeps ⟦<Bdd as Meaning>⟧ store.old store.new }
    ensures kept { OnOk result (IsKept store.new kept.new) }
    ensures adds { OnOk result (Adds kept.old kept.new) }
    ensures at { IfOk result (IsAt store.new kept.new e) }
    ensures empty { IsErrOf result fault.Empty → ⊥ }
    ensures full { IsErrOf result fault.Full → ⟦<Bdd as Meaning>⟧.count_of store.new ≡ ⟦<Bdd as Meaning>⟧.limit_of store.new }
{
    let Some(test) = store.test_of(e) else {
        return Ok(0);
    };
    let place = kept.place(e);
    if place > 0 {
        return Ok(place);
    }
    let vector = walk_test(alloc, store, kept, e, test)?;
    Ok(kept.keep(e, vector)?)
}

/// A vector that parametrises a function by its test.
#[cycle(walk)]
fn walk_test(
    alloc: Global,
    store: &mut Bdd,
    kept: &mut Kept,
    e: Edge,
    test: Test,
) -> Result<Edges, ParamFault>
    requires live { IsLive store.old e }
    requires test { IsTest store.old e test }
    requires depends { DependsBelow store.old e kept.old.width }
    requires place { e.number < length kept.old.places }
    requires kept { IsKept store.old kept.old }
    ensures keeps { Keeps ⟦<Bdd as Meaning>⟧ store.old store.new }
    ensures kept { OnOk result (IsKept store.new kept.new) }
    ensures adds { OnOk result (Adds kept.old kept.new) }
    ensures vector { IfOk result (IsParametrised store.new e kept.old.width) }
    ensures empty { IsErrOf result fault.Empty → ⊥ }
    ensures full { IsErrOf result fault.Full → ⟦<Bdd as Meaning>⟧.count_of store.new ≡ ⟦<Bdd as Meaning>⟧.limit_of store.new }
{
    if is_never(store, test.low) {
        return walk_high(alloc, store, kept, e, test);
    }
    if is_never(store, test.high) {
        return walk_low(alloc, store, kept, e, test);
    }
    walk_both(alloc, store, kept, e, test)
}

/// The same where the function is never true while its variable is false.
#[cycle(walk)]
fn walk_high(
    alloc: Global,
    store: &mut Bdd,
    kept: &mut Kept,
    e: Edge,
    test: Test,
) -> Result<Edges, ParamFault>
    requires live { IsLive store.old e }
    requires test { IsTest store.old e test }
    requires never { (a : ℕ → Bool) → truth_of store.old.nodes test.low a ≡ false }
    requires zero { test.low.number ≡ 1 }
    requires depends { DependsBelow store.old e kept.old.width }
    requires place { e.number < length kept.old.places }
    requires kept { IsKept store.old kept.old }
    ensures keeps { Keeps ⟦<Bdd as Meaning>⟧ store.old store.new }
    ensures kept { OnOk result (IsKept store.new kept.new) }
    ensures adds { OnOk result (Adds kept.old kept.new) }
    ensures vector { IfOk result (IsParametrised store.new e kept.old.width) }
    ensures empty { IsErrOf result fault.Empty → ⊥ }
    ensures full { IsErrOf result fault.Full → ⟦<Bdd as Meaning>⟧.count_of store.new ≡ ⟦<Bdd as Meaning>⟧.limit_of store.new }
{
    let high = walk(alloc, store, kept, test.high)?;
    let one = constant(store, true);
    let vector = Edges::with(alloc, kept.vector(high), test.variable, one)?;
    Ok(vector)
}

/// The same where the function is never true while its variable is true.
#[cycle(walk)]
fn walk_low(
    alloc: Global,
    store: &mut Bdd,
    kept: &mut Kept,
    e: Edge,
    test: Test,
) -> Result<Edges, ParamFault>
    requires live { IsLive store.old e }
    requires test { IsTest store.old e test }
    requires never { (a : ℕ → Bool) → truth_of store.old.nodes test.high a ≡ false }
    requires open { test.low.number ≢ 1 }
    requires depends { DependsBelow store.old e kept.old.width }
    requires place { e.number < length kept.old.places }
    requires kept { IsKept store.old kept.old }
    ensures keeps { Keeps ⟦<Bdd as Meaning>⟧ store.old store.new }
    ensures kept { OnOk result (IsKept store.new kept.new) }
    ensures adds { OnOk result (Adds kept.old kept.new) }
    ensures vector { IfOk result (IsParametrised store.new e kept.old.width) }
    ensures empty { IsErrOf result fault.Empty → ⊥ }
    ensures full { IsErrOf result fault.Full → ⟦<Bdd as Meaning>⟧.count_of store.new ≡ ⟦<Bdd as Meaning>⟧.limit_of store.new }
{
    let low = walk(alloc, store, kept, test.low)?;
    let zero = constant(store, false);
    let vector = Edges::with(alloc, kept.vector(low), test.variable, zero)?;
    Ok(vector)
}

/// The same where the function is true somewhere with either value of its variable.
#[cycle(walk)]
fn walk_both(
    alloc: Global,
    store: &mut Bdd,
    kept: &mut Kept,
    e: Edge,
    test: Test,
) -> Result<Edges, ParamFault>
    requires live { IsLive store.old e }
    requires test { IsTest store.old e test }
    requires high { test.high.number ≢ 1 }
    requires low { test.low.number ≢ 1 }
    requires depends { DependsBelow store.old e kept.old.width }
    requires place { e.number < length kept.old.places }
    requires kept { IsKept store.old kept.old }
    ensures keeps { Keeps ⟦<Bdd as Meaning>⟧ store.old store.new }
    ensures kept { OnOk result (IsKept store.new kept.new) }
    ensures adds { OnOk result (Adds kept.old kept.new) }
    ensures vector { IfOk result (IsParametrised store.new e kept.old.width) }
    ensures empty { IsErrOf result fault.Empty → ⊥ }
    ensures full { IsErrOf result fault.Full → ⟦<Bdd as Meaning>⟧.count_of store.new ≡ ⟦<Bdd as Meaning>⟧.limit_of store.new }
{
    let high = walk(alloc, store, kept, test.high)?;
    let low = walk(alloc, store, kept, test.low)?;
    let vector = chosen(alloc, store, kept, test, high, low)?;
    Ok(vector)
}

/// The vector of a test out of those of its two cofactors.
fn chosen(
    alloc: Global,
    store: &mut Bdd,
    kept: &Kept,
    test: Test,
    high: u32,
    low: u32,
) -> Result<Edges, ParamFault>
    requires kept { IsKept store.old kept.now }
    requires high { IsAt store.old kept.now test.high high }
    requires low { IsAt store.old kept.now test.low low }
    requires within { test.variable < kept.now.width }
    ensures keeps { Keeps ⟦<Bdd as Meaning>⟧ store.old store.new }
    ensures vector { IfOk result (λ v. (e : Edge) → IsTestFor store.new e test → IsParametrised store.new e kept.now.width v) }
    ensures empty { IsErrOf result fault.Empty → ⊥ }
    ensures full { IsErrOf result fault.Full → ⟦<Bdd as Meaning>⟧.count_of store.new ≡ ⟦<Bdd as Meaning>⟧.limit_of store.new }
{
    let variable = kept.variable(test.variable);
    let both = merged(alloc, store, variable, kept.vector(high), kept.vector(low))?;
    let vector = Edges::with(alloc, both.as_slice(), test.variable, variable)?;
    Ok(vector)
}
