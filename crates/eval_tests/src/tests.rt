//! What no clause says: that calls succeed, and when they stop at the very limit. The counts are those of the walk that
//! visits each subterm.

ghost use Rattle.std.specs.Prelude.{◌≡◌, ◌≤◌, [], ◌∷◌, pos};
ghost use Rattle.gl_logic.specs.DefinitionOf.{definition_of};
ghost use Rattle.gl_logic.specs.Exp.{Last, More};
ghost use Rattle.gl_logic.specs.Exp as exp;
ghost use Rattle.gl_logic.specs.IsTermOf.{IsTermOf};
ghost use Rattle.gl_logic.specs.Object.{Int};
ghost use Rattle.gl_logic.specs.TermOf.{term_of};
ghost use Rattle.gl_logic.specs.WorkedDefinitions.{atom_definition};
ghost use Rattle.lisp_eval.specs.Machines.{AreFunctionsOf, Fits};
ghost use Rattle.gl_logic.specs.declared.prim.Primitive.TheVariants as prim;

use gl_base::limits::Limits;
use gl_logic::{Def, FnId, Names, Prim, Term, TextId, Tree, World};
use hons_arena::{HonsArena, Kind};
use lisp_eval::{Env, EvalFault, Machine};
use shape_spec::FnSet;
use std::alloc::Global;
use std::process::Abort;

// the application of a primitive to one term
fn applied(rt: &impl Abort, alloc: Global, prim: Prim, term: Term) -> Term
    ensures { term_of result ≡ exp.Prim prim (More (term_of term) Last) }
{
    let mut args = Vec::new(alloc);
    args.push(term).expect(rt, "no memory");
    Term::Prim(prim, args)
}

// the application of a primitive to two terms
fn of_two(rt: &impl Abort, alloc: Global, prim: Prim, first: Term, second: Term) -> Term
    ensures { term_of result ≡ exp.Prim prim (More (term_of first) (More (term_of second) Last)) }
{
    let mut args = Vec::new(alloc);
    args.push(first).expect(rt, "no memory");
    args.push(second).expect(rt, "no memory");
    Term::Prim(prim, args)
}

// (defun atom (x) (not (consp x))), where x has number 5
fn atom(rt: &impl Abort, alloc: Global) -> Def
    ensures { definition_of result ≡ atom_definition }
{
    let mut formals = Names::new(alloc);
    formals.push(TextId { number: 5 }).expect(rt, "no memory");
    let inner = applied(rt, alloc, Prim::Consp, Term::Var(TextId { number: 5 }));
    Def {
        name: TextId { number: 9 },
        formals,
        body: applied(rt, alloc, Prim::Not, inner),
        measure: None,
    }
}

// adds that definition to a world without definitions
fn take(rt: &impl Abort, world: &mut World, def: Def)
    requires none { world.old.definitions ≡ [] }
    requires atom { definition_of def ≡ atom_definition }
    ensures { world.new.definitions ≡ atom_definition ∷ [] }
{
    world.push(def).expect(rt, "no memory");
}

fn atoms(rt: &impl Abort, alloc: Global) -> World
    ensures { result.definitions ≡ atom_definition ∷ [] }
{
    let mut world = World::new(alloc).expect(rt, "no memory");
    take(rt, &mut world, atom(rt, alloc));
    world
}

// (atom '7)
fn atom_of_seven(rt: &impl Abort, alloc: Global) -> Term
    ensures { term_of result ≡ exp.Call 0 (More (exp.Const (Int (pos 7))) Last) }
{
    let mut args = Vec::new(alloc);
    args.push(Term::Const(Tree::int(7))).expect(rt, "no memory");
    Term::Call(FnId { number: 0 }, args)
}

// (cons (atom '7) (atom '7))
fn both(rt: &impl Abort, alloc: Global) -> Term
    ensures { term_of result ≡ exp.Prim prim.Cons (More (exp.Call 0 (More (exp.Const (Int (pos 7))) Last)) (More (exp.Call 0 (More (exp.Const (Int (pos 7))) Last)) Last)) }
{
    let first = atom_of_seven(rt, alloc);
    let second = atom_of_seven(rt, alloc);
    of_two(rt, alloc, Prim::Cons, first, second)
}

// the usual limits, but for the steps
fn limits_of(steps: u32) -> Limits
    requires some { 1 ≤ steps }
    requires most { steps ≤ 99999999 }
{
    let usual = Limits::usual();
    Limits {
        steps,
        cells: usual.cells,
        nodes: usual.nodes,
        clauses: usual.clauses,
        enum_bits: usual.enum_bits,
        workers: usual.workers,
    }
}

// what the term is, where x has number 5 and this value
fn kind_of_value(
    rt: &impl Abort,
    alloc: Global,
    machine: &mut Machine,
    world: &World,
    term: &Term,
    x: &Tree,
) -> Result<Kind, EvalFault>
    requires fits { Fits world.now machine.old }
    requires term { IsTermOf world.now.definitions (term_of term.now) }
{
    match machine.input(x) {
        Ok(value) => {
            let mut env = Env::new(alloc);
            env.push(TextId { number: 5 }, value)
                .expect(rt, "no memory");
            match machine.eval(world, term, &env) {
                Ok(id) => Ok(machine.arena().kind(id)),
                Err(fault) => Err(fault),
            }
        }
        Err(fault) => Err(fault),
    }
}

// the same, in a machine with so many cells
fn kind_within(
    rt: &impl Abort,
    alloc: Global,
    world: &World,
    term: &Term,
    x: &Tree,
    memoized: &FnSet,
    steps: u32,
    cells: u32,
) -> Result<Kind, EvalFault>
    requires term { IsTermOf world.now.definitions (term_of term.now) }
    requires functions { AreFunctionsOf world.now memoized.now }
    requires some { 1 ≤ steps }
    requires most { steps ≤ 99999999 }
{
    let mut machine = Machine::new(alloc, &limits_of(steps)).expect(rt, "no memory");
    *machine.arena_mut() = HonsArena::new(alloc, cells).expect(rt, "no memory");
    match machine.begin(world, memoized) {
        Ok(()) => kind_of_value(rt, alloc, &mut machine, world, term, x),
        Err(fault) => Err(fault),
    }
}

// rows: the limits, the value of x, and what comes
fn all_rows(
    rt: &impl Abort,
    alloc: Global,
    world: &World,
    term: &Term,
    memoized: &FnSet,
    rows: &[(u32, u32, Option<i128>, Result<Kind, EvalFault>)],
)
    requires term { IsTermOf world.now.definitions (term_of term.now) }
    requires functions { AreFunctionsOf world.now memoized.now }
{
    for (steps, cells, x, wanted) in rows {
        let fits = *steps >= 1 && *steps <= 99_999_999;
        assert!(rt; fits);
        let x = value_of(*x);
        let kind = kind_within(rt, alloc, world, term, &x, memoized, *steps, *cells);
        assert!(rt; kind == *wanted, "{steps} {cells}");
    }
}

// an integer, or the symbol whose name has number 0
fn value_of(x: Option<i128>) -> Tree {
    match x {
        Some(x) => Tree::int(x),
        None => Tree::symbol(TextId { number: 0 }),
    }
}

// the first function alone
fn first_alone(rt: &impl Abort, alloc: Global) -> FnSet
    ensures { result ≡ 0 ∷ [] }
{
    let mut functions = FnSet::new(alloc);
    functions.push(FnId { number: 0 }).expect(rt, "no memory");
    functions
}

#[test]
fn limits(rt: HostRuntime) {
    let world = atoms(&rt, rt.alloc());
    let term = both(&rt, rt.alloc());
    let kept = first_alone(&rt, rt.alloc());
    let rows = [
        (8, 2, None, Ok(Kind::Cons)),
        (7, 2, None, Err(EvalFault::Steps)),
        (8, 1, None, Err(EvalFault::Cells)),
    ];
    all_rows(&rt, rt.alloc(), &world, &term, &kept, &rows);
    let none = FnSet::new(rt.alloc());
    let rows = [
        (11, 2, None, Ok(Kind::Cons)),
        (10, 2, None, Err(EvalFault::Steps)),
    ];
    all_rows(&rt, rt.alloc(), &world, &term, &none, &rows);
}

// (binary-+ x '1)
fn next(rt: &impl Abort, alloc: Global) -> Term
    ensures { term_of result ≡ exp.Prim prim.BinaryPlus (More (exp.Var 5) (More (exp.Const (Int (pos 1))) Last)) }
{
    let x = Term::Var(TextId { number: 5 });
    of_two(rt, alloc, Prim::BinaryPlus, x, Term::Const(Tree::int(1)))
}

#[test]
fn width(rt: HostRuntime) {
    let world = atoms(&rt, rt.alloc());
    let term = next(&rt, rt.alloc());
    let rows = [
        (3, 3, Some(41), Ok(Kind::Int(42))),
        (3, 3, Some(i128::MAX), Err(EvalFault::Width)),
    ];
    let none = FnSet::new(rt.alloc());
    all_rows(&rt, rt.alloc(), &world, &term, &none, &rows);
}

// sets a constant to an integer, under a name that is free
fn set(rt: &impl Abort, world: &mut World, number: u64, value: i128) {
    let name = TextId { number };
    let is_free = world.constant(name).is_none();
    assert!(rt; is_free);
    world
        .set_constant(name, Tree::int(value))
        .expect(rt, "no memory");
}

// a world whose constants have these values
fn constants(rt: &impl Abort, alloc: Global, values: &[i128]) -> World {
    let mut world = World::new(alloc).expect(rt, "no memory");
    for i in 0..values.len() {
        set(rt, &mut world, i as u64, values[i]);
    }
    world
}

// how many cells are held at the beginning, where there is room for so many
fn held_at_first(
    rt: &impl Abort,
    alloc: Global,
    values: &[i128],
    cells: u32,
) -> Result<u32, EvalFault> {
    let world = constants(rt, alloc, values);
    let mut machine = Machine::new(alloc, &limits_of(1)).expect(rt, "no memory");
    *machine.arena_mut() = HonsArena::new(alloc, cells).expect(rt, "no memory");
    match machine.begin(&world, &FnSet::new(alloc)) {
        Ok(()) => Ok(machine.arena().count()),
        Err(fault) => Err(fault),
    }
}

#[test]
fn constants_at_first(rt: HostRuntime) {
    let different: [i128; 3] = [1, 2, 3];
    let repeated: [i128; 5] = [1, 2, 1, 2, 1];
    let rows: [(&[i128], u32, Result<u32, EvalFault>); 4] = [
        (&different, 3, Ok(0)),
        (&different, 2, Err(EvalFault::Cells)),
        (&repeated, 5, Ok(0)),
        (&repeated, 2, Ok(2)),
    ];
    for (values, cells, wanted) in &rows {
        let held = held_at_first(&rt, rt.alloc(), values, *cells);
        assert!(rt; held == *wanted, "{cells}");
    }
}

// (cons '7 x)
fn seven_first(rt: &impl Abort, alloc: Global) -> Term
    ensures { term_of result ≡ exp.Prim prim.Cons (More (exp.Const (Int (pos 7))) (More (exp.Var 5) Last)) }
{
    let x = Term::Var(TextId { number: 5 });
    of_two(rt, alloc, Prim::Cons, Term::Const(Tree::int(7)), x)
}

// the constant is placed when it is met: there is room for it, the value of x and their cons, or for one less
#[test]
fn constants_when_met(rt: HostRuntime) {
    let world = constants(&rt, rt.alloc(), &[7]);
    let term = seven_first(&rt, rt.alloc());
    let rows = [
        (3, 3, Some(41), Ok(Kind::Cons)),
        (3, 2, Some(41), Err(EvalFault::Cells)),
    ];
    let none = FnSet::new(rt.alloc());
    all_rows(&rt, rt.alloc(), &world, &term, &none, &rows);
}

#[test]
fn back_to_a_mark(rt: HostRuntime) {
    let world = atoms(&rt, rt.alloc());
    let mut machine = Machine::new(rt.alloc(), &limits_of(10)).expect(&rt, "no memory");
    let kept = first_alone(&rt, rt.alloc());
    assert!(rt; machine.begin(&world, &kept).is_ok());
    let mark = machine.mark();
    assert!(rt; machine.input(&Tree::int(7)).is_ok());
    assert!(rt; machine.arena().count() == 1);
    machine.back(mark);
    assert!(rt; machine.arena().count() == 0);
}
