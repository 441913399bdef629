//! Indices whose values the hypothesis fixes.

ghost use Rattle.std.specs.Prelude.{◌≡◌, ◌<◌, ◌≤◌, ℕ, Bool, true, false, length, Ok, IfOk, IfErr};
ghost use Rattle.bfr_store.specs.Edges.{xor};
ghost use Rattle.sym_objects.specs.Seen.{IsWhole};
ghost use Rattle.sym_prims.specs.Applying.{Leaves, Tells};
ghost use Rattle.gl_symbolic.specs.Decisions.{HasRunOut, IsGivenUpOn};
ghost use Rattle.gl_symbolic.specs.Narrowing.{IsIndex, IsNarrowed};

use super::certifying_store::{CertifyingStore, reach};
use super::decision::{Decision, given_up};
use bfr_store::{Bits, Edge, Full};
use gl_logic::Assignment;
use std::alloc::Global;
use sym_objects::Sobs;
use sym_prims::store_calls::{complement, conjunction, constant_edge};

/// The function of a variable that the store has.
fn variable<B: Bits>(objs: &mut Sobs<B>, k: u32) -> Result<Edge, Full>
    requires whole { IsWhole B.Meaning objs.old }
    requires there { k < B.width_of objs.old.store }
    requires small { k < 1024 }
    ensures tells { Tells B.Meaning objs.old objs.new result (λ a. a k) }
{
    objs.store().var(k)
}

/// How many nodes there are in the store.
fn count<B: Bits>(objs: &mut Sobs<B>) -> u32
    ensures same { objs.new ≡ objs.old }
{
    objs.store().count()
}

/// The function that is true where an edge's truth is not this value.
fn unlike<B: Bits>(objs: &mut Sobs<B>, edge: Edge, value: bool) -> Edge
    requires { B.live objs.old.store edge }
    ensures same { objs.new ≡ objs.old }
    ensures live { B.live objs.old.store result }
    ensures truth { (a : ℕ → Bool) → B.truth_of objs.old.store result a ≡ xor value (B.truth_of objs.old.store edge a) }
{
    if value { complement(objs, edge) } else { edge }
}

/// Whether some assignment makes the hypothesis true and gives an edge another truth than this value. A store without room
/// for the question answers that one does.
fn may_differ<B: CertifyingStore>(
    alloc: Global,
    objs: &mut Sobs<B>,
    hyp: Edge,
    edge: Edge,
    value: bool,
) -> Result<bool, Decision>
    requires whole { IsWhole B.Meaning objs.old }
    requires hyp { B.live objs.old.store hyp }
    requires edge { B.live objs.old.store edge }
    ensures leaves { Leaves B.Meaning objs.old objs.new }
    ensures fixed { result ≡ Ok false → (a : ℕ → Bool) → B.truth_of objs.old.store hyp a ≡ true → B.truth_of objs.old.store edge a ≡ value }
    ensures stops { IfErr result IsGivenUpOn }
    ensures run_out { IfErr result (HasRunOut B.Meaning objs.new) }
{
    let other = unlike(objs, edge, value);
    match conjunction(objs, hyp, other) {
        Err(_) => Ok(true),
        Ok(apart) => match reach(alloc, objs, apart) {
            Ok(None) => Ok(false),
            Ok(Some(_)) => Ok(true),
            Err(fault) => Err(given_up(fault)),
        },
    }
}

/// An edge that stands for an index wherever the hypothesis is true: a constant, where this is asked and the hypothesis fixes
/// the index, and else its variable. The value is one that the index has where the hypothesis is true.
fn index_edge<B: CertifyingStore>(
    alloc: Global,
    objs: &mut Sobs<B>,
    hyp: Edge,
    k: u32,
    value: bool,
    ask: bool,
) -> Result<Edge, Decision>
    requires whole { IsWhole B.Meaning objs.old }
    requires hyp { B.live objs.old.store hyp }
    requires there { k < B.width_of objs.old.store }
    requires small { k < 1024 }
    ensures leaves { Leaves B.Meaning objs.old objs.new }
    ensures index { IfOk result (IsIndex B.Meaning objs.new hyp k) }
    ensures stops { IfErr result IsGivenUpOn }
    ensures run_out { IfErr result (HasRunOut B.Meaning objs.new) }
{
    match variable(objs, k) {
        Err(_) => Err(Decision::Full),
        Ok(edge) => {
            if !ask {
                return Ok(edge);
            }
            match may_differ(alloc, objs, hyp, edge, value) {
                Ok(true) => Ok(edge),
                Ok(false) => Ok(constant_edge(objs, value)),
                Err(decision) => Err(decision),
            }
        }
    }
}

/// An edge for each index, which stands for it wherever the hypothesis is true: a constant, where the hypothesis is found to
/// fix the index. The assignment makes the hypothesis true. An eighth of the store's room is spent on the questions at most,
/// and what one of them takes beyond.
pub(crate) fn index_edges<B: CertifyingStore>(
    alloc: Global,
    objs: &mut Sobs<B>,
    hyp: Edge,
    found: &Assignment,
    width: u32,
) -> Result<Vec<Edge>, Decision>
    requires whole { IsWhole B.Meaning objs.old }
    requires hyp { B.live objs.old.store hyp }
    requires found { length found.now ≡ width }
    requires width { width ≡ B.width_of objs.old.store }
    requires few { width ≤ 1024 }
    ensures leaves { Leaves B.Meaning objs.old objs.new }
    ensures edges { IfOk result (λ v. IsNarrowed B.Meaning objs.new hyp v.items) }
    ensures count { IfOk result (λ v. length v.items ≡ width) }
    ensures stops { IfErr result IsGivenUpOn }
    ensures run_out { IfErr result (HasRunOut B.Meaning objs.new) }
{
    let most = share(objs);
    let mut edges = Vec::new(alloc);
    for k in 0..width {
        let ask = count(objs) <= most;
        let edge = index_edge(alloc, objs, hyp, k, found.get(k), ask)?;
        if edges.push(edge).is_err() {
            return Err(Decision::Memory);
        }
    }
    Ok(edges)
}

/// How many nodes the store may have for another question.
fn share<B: Bits>(objs: &mut Sobs<B>) -> u32
    ensures same { objs.new ≡ objs.old }
{
    let count = objs.store().count();
    let limit = objs.store().limit();
    if count <= limit {
        count + (limit - count) / 8
    } else {
        count
    }
}
