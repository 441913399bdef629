//! Calls of the lent bit store, and assignments.

ghost use Rattle.std.specs.Prelude.{◌≡◌, ◌<◌, ◌&&◌, ℕ, Bool, true, false, Ok, Some, None, length, IfOk, IfErr, IfSome, IsSome, MatchOption};
ghost use Rattle.gl_logic.specs.Assignments.{value_at};
ghost use Rattle.sym_objects.specs.Seen.{IsWhole};
ghost use Rattle.sym_prims.specs.Applying.{Leaves};
ghost use Rattle.gl_interp.specs.Branches.{IsAgain, IsPartEdge, IsUnreached};
ghost use Rattle.gl_interp.specs.Running.{IsWitness, IsWitnessed};
ghost use Rattle.gl_interp.specs.TurnFaults.{HasPlainCause};

use super::fault::GlFault;
use super::frame::Path;
use bfr_store::{Bits, Edge};
use gl_logic::{Assignment, NoMemory};
use std::alloc::Global;
use sym_objects::Sobs;
use sym_prims::store_calls::{conjunction, constant_edge, is_always, reaches, width};

/// The truth of an edge under an assignment.
pub fn value<B: Bits>(objs: &mut Sobs<B>, edge: Edge, a: &Assignment) -> bool
    requires whole { IsWhole B.Meaning objs.old }
    requires edge { B.live objs.old.store edge }
    requires width { length a.now ≡ B.width_of objs.old.store }
    ensures leaves { Leaves B.Meaning objs.old objs.new }
    ensures truth { result ≡ B.truth_of objs.old.store edge (value_at a.now) }
{
    objs.store().value(edge, a)
}

/// An equal assignment of its own.
pub fn copy_of<B: Bits>(
    alloc: Global,
    objs: &mut Sobs<B>,
    a: &Assignment,
) -> Result<Assignment, NoMemory>
    requires { length a.now ≡ B.width_of objs.old.store }
    ensures same { objs.new ≡ objs.old }
    ensures copy { IfOk result (λ b. b ≡ a.now) }
{
    let width = width(objs);
    copied(alloc, a, width)
}

/// The same, where the number of variables is known.
fn copied(alloc: Global, a: &Assignment, width: u32) -> Result<Assignment, NoMemory>
    requires { length a.now ≡ width }
    ensures { IfOk result (λ b. b ≡ a.now) }
{
    let mut copy = Assignment::new(alloc, width)?;
    for k in 0..width {
        copy.set(k, a.get(k));
    }
    Ok(copy)
}

/// The edge of the path's part where the test is true. None where it is the constant false. No decision is taken.
pub fn part<B: Bits>(objs: &mut Sobs<B>, path: Edge, test: Edge) -> Result<Option<Edge>, GlFault>
    requires whole { IsWhole B.Meaning objs.old }
    requires path { B.live objs.old.store path }
    requires test { B.live objs.old.store test }
    ensures leaves { Leaves B.Meaning objs.old objs.new }
    ensures part { IfOk result (λ o. MatchOption o (IsUnreached B.Meaning objs.old path test) (IsPartEdge B.Meaning objs.old objs.new path (B.truth_of objs.old.store test))) }
    ensures cause { IfErr result (HasPlainCause B.Meaning objs.new) }
{
    let both = conjunction(objs, path, test)?;
    if is_always(objs, both, false) {
        Ok(None)
    } else {
        Ok(Some(both))
    }
}

/// A copy of the path's assignment.
pub fn known<B: Bits>(
    alloc: Global,
    objs: &mut Sobs<B>,
    path: &Path,
) -> Result<Assignment, NoMemory>
    requires known { IsSome path.now.found }
    requires width { IfSome path.now.found (λ w. length w ≡ B.width_of objs.old.store) }
    ensures same { objs.new ≡ objs.old }
    ensures copy { IfOk result (λ w. path.now.found ≡ Some w) }
{
    match &path.found {
        Some(found) => copy_of(alloc, objs, found),
        None => unreachable!(),
    }
}

/// An assignment that makes the path's edge true, or none where none does.
pub fn witness<B: Bits>(
    alloc: Global,
    objs: &mut Sobs<B>,
    path: &Path,
) -> Result<Option<Assignment>, GlFault>
    requires whole { IsWhole B.Meaning objs.old }
    requires path { B.live objs.old.store path.now.edge }
    requires witnessed { IsWitnessed (B.truth_of objs.old.store) (B.width_of objs.old.store) path.now }
    ensures leaves { Leaves B.Meaning objs.old objs.new }
    ensures some { IfOk result (λ o. IfSome o (IsWitness (B.truth_of objs.new.store) (B.width_of objs.new.store) path.now.edge)) }
    ensures never { result ≡ Ok None → (a : ℕ → Bool) → B.truth_of objs.old.store path.now.edge a ≡ false }
    ensures cause { IfErr result (HasPlainCause B.Meaning objs.new) }
{
    if path.found.is_some() {
        return Ok(Some(known(alloc, objs, path)?));
    }
    match reaches(alloc, objs, path.edge) {
        Ok(found) => Ok(found),
        Err(fault) => Err(GlFault::of(fault)),
    }
}

/// Whether some assignment makes the path's edge true. The path has one then, and has the edge that is never true where none
/// does: neither is asked again.
pub fn is_reached<B: Bits>(
    alloc: Global,
    objs: &mut Sobs<B>,
    path: &mut Path,
) -> Result<bool, GlFault>
    requires whole { IsWhole B.Meaning objs.old }
    requires path { B.live objs.old.store path.old.edge }
    requires witnessed { IsWitnessed (B.truth_of objs.old.store) (B.width_of objs.old.store) path.old }
    ensures leaves { Leaves B.Meaning objs.old objs.new }
    ensures again { IfOk result (λ _. IsAgain B.Meaning objs.old objs.new path.old path.new) }
    ensures some { result ≡ Ok true → IsSome path.new.found }
    ensures never { result ≡ Ok false → (a : ℕ → Bool) → B.truth_of objs.old.store path.old.edge a ≡ false }
    ensures cause { IfErr result (HasPlainCause B.Meaning objs.new) }
{
    if path.found.is_some() {
        return Ok(true);
    }
    if is_always(objs, path.edge, false) {
        return Ok(false);
    }
    match witness(alloc, objs, path)? {
        Some(found) => {
            path.found = Some(found);
            Ok(true)
        }
        None => {
            path.edge = constant_edge(objs, false);
            Ok(false)
        }
    }
}

/// The path of an edge that some assignment makes true.
pub fn path_of<B: Bits>(alloc: Global, objs: &mut Sobs<B>, edge: Edge) -> Result<Path, GlFault>
    requires whole { IsWhole B.Meaning objs.old }
    requires edge { B.live objs.old.store edge }
    requires reaches { (a : ℕ → Bool) × (B.truth_of objs.old.store edge a ≡ true) }
    ensures leaves { Leaves B.Meaning objs.old objs.new }
    ensures edge { IfOk result (λ w. w.edge ≡ edge) }
    ensures witnessed { IfOk result (IsWitnessed (B.truth_of objs.new.store) (B.width_of objs.new.store)) }
    ensures cause { IfErr result (HasPlainCause B.Meaning objs.new) }
{
    let width = width(objs);
    let first = Assignment::new(alloc, width)?;
    if value(objs, edge, &first) {
        return Ok(Path {
            edge,
            found: Some(first),
        });
    }
    match reaches(alloc, objs, edge) {
        Ok(Some(found)) => Ok(Path {
            edge,
            found: Some(found),
        }),
        Ok(None) => unreachable!(),
        Err(fault) => Err(GlFault::of(fault)),
    }
}
