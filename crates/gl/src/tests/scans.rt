//! A theorem's inputs, tried by two workers at once.

use super::meeting::Meeting;
use gl_base::limits::Limits;
use gl_decide::{Scan, scan};
use gl_logic::{NoMemory, Term, TextId, Tree, World};
use shape_spec::{Bindings, FnSet, Mode, Shape, Thm, bit_count};
use std::alloc::Global;
use std::process::Abort;
use std::test::Fail;
use std::thread::Threads;

/// The bindings of two Boolean variables.
fn two_variables(alloc: Global) -> Result<Bindings, NoMemory> {
    let mut bindings = Bindings::new(alloc);
    bindings.push(alloc, TextId { number: 7 }, Shape::Boolean(0))?;
    bindings.push(alloc, TextId { number: 9 }, Shape::Boolean(1))?;
    Ok(bindings)
}

/// Scans the inputs of a theorem of two variables by two workers.
fn scanned<R: Abort + Threads + Sync>(
    rt: &R,
    alloc: Global,
    bindings: Bindings,
    gate: &Meeting,
) -> Result<Scan, NoMemory> {
    assert!(rt; bit_count(&bindings) == 2);
    let thm = Thm {
        name: TextId { number: 0 },
        hyp: Term::Const(Tree::int(1)),
        concl: Term::Const(Tree::int(2)),
        bindings,
        hyp_clk: 1,
        concl_clk: 1,
        mode: Mode::Bdd,
        memoized: FnSet::new(alloc),
    };
    let world = World::new(alloc)?;
    let mut limits = Limits::usual();
    limits.workers = 2;
    Ok(scan(rt, alloc, &world, &thm, &limits, gate))
}

#[test]
fn pieces_meet(rt: HostRuntime) -> Result<(), Fail> {
    let bindings = two_variables(rt.alloc())?;
    let gate = Meeting::new();
    assert!(rt; scanned(&rt, rt.alloc(), bindings, &gate)? == Scan::Clean(true));
    assert!(rt; gate.met() == 2);
    Ok(())
}
