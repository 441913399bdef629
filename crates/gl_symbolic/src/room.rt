//! A decision in a theorem's mode, with stores of its own.

ghost use Rattle.std.specs.Prelude.{◌≡◌, ◌≢◌};
ghost use Rattle.gl_logic.specs.IsTermOf.{IsTermOf};
ghost use Rattle.gl_logic.specs.TermOf.{term_of};
ghost use Rattle.lisp_eval.specs.Machines.{AreFunctionsOf};
ghost use Rattle.sat_core.specs.Decisions.{IsSpentWell};
ghost use Rattle.gl_symbolic.specs.Decisions.{IsProper, IsReady};
ghost use Rattle.gl_symbolic.specs.Rooms.{IsUnplaced, LeavesRoom};

use super::decide::decide_symbolically;
use super::decision::Decision;
use super::parametrised::decide_parametrised;
use bdd_store::Bdd;
use bfr_store::Meaning;
use gl_base::limits::Limits;
use gl_logic::{Assignment, World};
use lisp_eval::{EvalFault, Machine};
use sat_core::AigSat;
use shape_spec::{Mode, Part, Thm, bit_count};
use std::alloc::Global;
use sym_objects::Sobs;

/// The stores that a decision leaves.
#[derive(Drop)]
pub enum Room {
    /// None: no symbolic run was begun.
    Empty,
    /// Decision diagrams.
    Bdd(Sobs<Bdd>),
    /// Graphs that are searched, with the book of the last decision.
    Sat(Sobs<AigSat>),
}

/// Decides a theorem in its mode, with a machine and stores of its own. The decision, and the stores as it leaves them.
///
/// On Full the table of symbolic objects or its bit store holds `limits.nodes` nodes. On Spent the mode is Sat, and the
/// store's decisions have learned `limits.clauses` clauses together.
pub fn decide_in_mode(alloc: Global, world: &World, thm: &Thm, limits: &Limits) -> (Decision, Room)
    requires hyp { IsTermOf world.now.definitions (term_of thm.now.hyp) }
    requires concl { IsTermOf world.now.definitions (term_of thm.now.concl) }
    requires functions { AreFunctionsOf world.now thm.now.memoized }
    ensures proper { IsProper world.now limits.now.steps limits.now.cells thm.now result.0 }
    ensures room { LeavesRoom ⟦<Bdd as Meaning>⟧ ⟦<AigSat as Meaning>⟧ limits.now.nodes limits.now.clauses thm.now.mode result.0 result.1 }
{
    run_in_mode(alloc, world, thm, thm.mode, limits)
}

/// Decides a theorem in a mode that need not be its own, as [`decide_in_mode`] decides one of that mode. But where the
/// parameters or the conclusion on them take all nodes, a theorem of another mode is not run once more without them.
pub fn run_in_mode(
    alloc: Global,
    world: &World,
    thm: &Thm,
    mode: Mode,
    limits: &Limits,
) -> (Decision, Room)
    requires hyp { IsTermOf world.now.definitions (term_of thm.now.hyp) }
    requires concl { IsTermOf world.now.definitions (term_of thm.now.concl) }
    requires functions { AreFunctionsOf world.now thm.now.memoized }
    ensures proper { IsProper world.now limits.now.steps limits.now.cells thm.now result.0 }
    ensures room { LeavesRoom ⟦<Bdd as Meaning>⟧ ⟦<AigSat as Meaning>⟧ limits.now.nodes limits.now.clauses mode result.0 result.1 }
{
    let Ok(mut machine) = Machine::new(alloc, limits) else {
        return (Decision::Memory, Room::Empty);
    };
    let decided = run_on(alloc, &mut machine, world, thm, mode, limits);
    drop(machine);
    decided
}

/// Decides a theorem in a mode, as [`run_in_mode`] does, on a machine with the steps and the cells of the limits.
fn run_on(
    alloc: Global,
    machine: &mut Machine,
    world: &World,
    thm: &Thm,
    mode: Mode,
    limits: &Limits,
) -> (Decision, Room)
    requires hyp { IsTermOf world.now.definitions (term_of thm.now.hyp) }
    requires concl { IsTermOf world.now.definitions (term_of thm.now.concl) }
    requires functions { AreFunctionsOf world.now thm.now.memoized }
    requires steps { machine.old.steps ≡ limits.now.steps }
    requires cells { machine.old.arena.limit ≡ limits.now.cells }
    ensures proper { IsProper world.now limits.now.steps limits.now.cells thm.now result.0 }
    ensures room { LeavesRoom ⟦<Bdd as Meaning>⟧ ⟦<AigSat as Meaning>⟧ limits.now.nodes limits.now.clauses mode result.0 result.1 }
{
    // every term of the world has a value
    let _count = world.count();
    match machine.begin(world, &thm.memoized) {
        Ok(()) => match mode {
            Mode::Bdd => by_diagrams(alloc, machine, world, thm, mode, limits),
            Mode::Param => by_parameters(alloc, machine, world, thm, mode, limits),
            Mode::Sat => by_search(alloc, machine, world, thm, mode, limits),
        },
        Err(EvalFault::Cells) => (unplaced(alloc, thm), Room::Empty),
        Err(_) => (Decision::Memory, Room::Empty),
    }
}

/// The decision where the cells don't suffice for the world's constants: any input of the hypothesis has that cause.
fn unplaced(alloc: Global, thm: &Thm) -> Decision
    ensures { IsUnplaced thm.now result }
{
    match Assignment::new(alloc, bit_count(&thm.bindings)) {
        Ok(first) => Decision::Cells(Part::Hyp, first),
        Err(_) => Decision::Memory,
    }
}

/// Decides over decision diagrams, with the conclusion run on an input that meets the hypothesis under every assignment.
/// Where the nodes suffice for the hypothesis and not for that, a theorem of mode Param is decided once more without it, in
/// new stores.
fn by_parameters(
    alloc: Global,
    machine: &mut Machine,
    world: &World,
    thm: &Thm,
    mode: Mode,
    limits: &Limits,
) -> (Decision, Room)
    requires ready { IsReady world.now thm.now machine.old }
    requires hyp { IsTermOf world.now.definitions (term_of thm.now.hyp) }
    requires concl { IsTermOf world.now.definitions (term_of thm.now.concl) }
    requires mode { mode ≢ Mode.Sat }
    ensures proper { IsProper world.now machine.old.steps machine.old.arena.limit thm.now result.0 }
    ensures room { LeavesRoom ⟦<Bdd as Meaning>⟧ ⟦<AigSat as Meaning>⟧ limits.now.nodes limits.now.clauses mode result.0 result.1 }
{
    let nodes = limits.nodes;
    let Ok(store) = Bdd::new(alloc, nodes) else {
        return (Decision::Memory, Room::Empty);
    };
    let Ok(mut objs) = Sobs::new(alloc, store, nodes) else {
        return (Decision::Memory, Room::Empty);
    };
    match decide_parametrised(alloc, &mut objs, machine, world, thm) {
        Some(decision) => (decision, Room::Bdd(objs)),
        None => match thm.mode {
            Mode::Param => {
                drop(objs);
                by_diagrams(alloc, machine, world, thm, mode, limits)
            }
            Mode::Bdd | Mode::Sat => (Decision::Full, Room::Bdd(objs)),
        },
    }
}

/// Decides over decision diagrams.
fn by_diagrams(
    alloc: Global,
    machine: &mut Machine,
    world: &World,
    thm: &Thm,
    mode: Mode,
    limits: &Limits,
) -> (Decision, Room)
    requires ready { IsReady world.now thm.now machine.old }
    requires hyp { IsTermOf world.now.definitions (term_of thm.now.hyp) }
    requires concl { IsTermOf world.now.definitions (term_of thm.now.concl) }
    requires mode { mode ≢ Mode.Sat }
    ensures proper { IsProper world.now machine.old.steps machine.old.arena.limit thm.now result.0 }
    ensures room { LeavesRoom ⟦<Bdd as Meaning>⟧ ⟦<AigSat as Meaning>⟧ limits.now.nodes limits.now.clauses mode result.0 result.1 }
{
    let nodes = limits.nodes;
    let Ok(store) = Bdd::new(alloc, nodes) else {
        return (Decision::Memory, Room::Empty);
    };
    let Ok(mut objs) = Sobs::new(alloc, store, nodes) else {
        return (Decision::Memory, Room::Empty);
    };
    let decision = decide_symbolically(alloc, &mut objs, machine, world, thm, mode);
    (decision, Room::Bdd(objs))
}

/// Decides over graphs, by search.
fn by_search(
    alloc: Global,
    machine: &mut Machine,
    world: &World,
    thm: &Thm,
    mode: Mode,
    limits: &Limits,
) -> (Decision, Room)
    requires ready { IsReady world.now thm.now machine.old }
    requires hyp { IsTermOf world.now.definitions (term_of thm.now.hyp) }
    requires concl { IsTermOf world.now.definitions (term_of thm.now.concl) }
    requires mode { mode ≡ Mode.Sat }
    ensures proper { IsProper world.now machine.old.steps machine.old.arena.limit thm.now result.0 }
    ensures room { LeavesRoom ⟦<Bdd as Meaning>⟧ ⟦<AigSat as Meaning>⟧ limits.now.nodes limits.now.clauses mode result.0 result.1 }
{
    let nodes = limits.nodes;
    let Ok(store) = AigSat::new(alloc, nodes, limits.clauses) else {
        return (Decision::Memory, Room::Empty);
    };
    let Ok(mut objs) = Sobs::new(alloc, store, nodes) else {
        return (Decision::Memory, Room::Empty);
    };
    let decision = decide_symbolically(alloc, &mut objs, machine, world, thm, mode);
    // the decisions of a store that gave up have learned all its clauses
    let _spent = is_spent(&mut objs);
    (decision, Room::Sat(objs))
}

/// Whether the store gave up its last decision.
fn is_spent(objs: &mut Sobs<AigSat>) -> bool
    ensures same { objs.new ≡ objs.old }
    ensures spent { result ≡ objs.old.store.spent }
    ensures well { IsSpentWell objs.old.store.spent objs.old.store.clauses objs.old.store.learned objs.old.store.book }
{
    objs.store().is_spent()
}
