//! The machine: an arena, tables beside it, and the evaluator over them.

ghost use Rattle.std.specs.Prelude.{◌≡◌, ◌≤◌, ◌↔◌, [], All, Contains, IfOk, IsErr, IsErrOf, OnErr, OnOk, length, take};
ghost use Rattle.std.specs.Borrow.{sem};
ghost use Rattle.gl_logic.specs.CellCounts.{constant_cells};
ghost use Rattle.gl_logic.specs.IsTermOf.{IsTermOf};
ghost use Rattle.gl_logic.specs.TermOf.{term_of};
ghost use Rattle.gl_logic.specs.WorldSeen.{WorldSeen};
ghost use Rattle.hons_arena.specs.Held.{AddsCellsOf, HasNoRoomFor, IsWhole};
ghost use Rattle.hons_arena.specs.Ids.{IsIdOf};
ghost use Rattle.lisp_eval.specs.Answers.{IsValueOf, IsLicensed, IsLiveBinding, HasGrown};
ghost use Rattle.lisp_eval.specs.Lending.{LendsArena};
ghost use Rattle.lisp_eval.specs.MachineCalls.{KeepsSettings, IsEmptied, BeginsWith, RefusesForCells, HoldsSeen, IsRefused};
ghost use Rattle.lisp_eval.specs.Machines.{Fits, AreFunctionsOf, IsLiveEntry};
ghost use Rattle.lisp_eval.specs.States.{env_of};
ghost use Rattle.lisp_eval.specs.declared.fault.EvalFault.TheVariants as fault;

use crate::attempt::Setting;
use crate::constants::{constants_in, place_all};
use crate::env::Env;
use crate::eval::evaluate;
use crate::fault::EvalFault;
use fast_alists::FastAlists;
use gl_base::limits::Limits;
use gl_logic::{NoMemory, Term, Tree, World};
use hons_arena::{HonsArena, Id, Mark};
use memo_tables::MemoTables;
use shape_spec::FnSet;
use std::alloc::Global;
use std::marker::Model;

/// An arena with fast alists and memo tables, which evaluates terms of a world that it fits, within limits of steps and
/// cells. Contracts see the arena, the limit of steps, the memoized functions, the kept calls, and the lists that have a
/// table, with the tables.
#[derive(Drop)]
pub struct Machine {
    alloc: Global,
    arena: HonsArena,
    alists: FastAlists,
    memos: MemoTables,
    functions: Vec<u64>,
    steps: u64,
}

impl Model for Machine {
    ghost use Rattle.std.specs.Prelude.{All};
    ghost use Rattle.fast_alists.specs.Tables.{Agree};
    ghost use Rattle.lisp_eval.specs.Machines.{MachineSeen, coded_machine, IsLiveEntry};

    ghost Value = { MachineSeen };

    ghost coded = { coded_machine };

    ghost view = { λ m. record { arena = m.arena; steps = m.steps; functions = m.functions.items; memos = m.memos; tables = m.alists } };

    ghost invariant = { λ m. Agree m.arena.objects m.alists × All (IsLiveEntry m.arena.objects) m.memos };
}

impl Machine {
    /// An empty machine with these limits of steps and cells: nothing is held, kept or memoized, and no list has a table.
    pub fn new(alloc: Global, limits: &Limits) -> Result<Machine, NoMemory>
        ensures objects { IfOk result (λ m. m.arena.objects ≡ []) }
        ensures cells { IfOk result (λ m. m.arena.limit ≡ limits.now.cells) }
        ensures steps { IfOk result (λ m. m.steps ≡ limits.now.steps) }
        ensures functions { IfOk result (λ m. m.functions ≡ []) }
        ensures memos { IfOk result (λ m. m.memos ≡ []) }
        ensures tables { IfOk result (λ m. m.tables ≡ []) }
    {
        Ok(Machine {
            alloc,
            arena: HonsArena::new(alloc, limits.cells)?,
            alists: FastAlists::new(alloc)?,
            memos: MemoTables::new(alloc)?,
            functions: Vec::new(alloc),
            steps: u64::from(limits.steps),
        })
    }

    /// Empties everything and takes over the memoized functions. Cells exactly where the different cells of the constants of
    /// the world and of its definitions' bodies exceed the limit, unless memory is refused. After a refusal the machine is
    /// empty.
    ///
    /// A constant is placed when an evaluation first meets it. All are placed here where the count that the world keeps does
    /// not tell that they fit, however often they repeat.
    pub fn begin(&mut self, world: &World, memoized: &FnSet) -> Result<(), EvalFault>
        requires functions { AreFunctionsOf world.now memoized.now }
        ensures begins { OnOk result (BeginsWith world.now memoized.now self.old self.new) }
        ensures cells { RefusesForCells world.now self.old.arena.limit result }
        ensures emptied { OnErr result (IsEmptied self.old self.new) }
    {
        self.empty();
        match set_up(
            self.alloc,
            world,
            memoized,
            &mut self.arena,
            &mut self.functions,
        ) {
            Ok(()) => Ok(()),
            Err(fault) => {
                self.empty();
                Err(fault)
            }
        }
    }

    /// Nothing is held, kept or memoized any more, and no list has a table.
    fn empty(&mut self)
        ensures { IsEmptied self.old self.new }
    {
        self.memos.clear();
        self.alists.clear();
        self.functions.clear();
        self.arena.release(Mark { count: 0 });
    }

    /// The id of a tree's object. Only Cells comes, exactly where the object's different cells that are not held are more
    /// than the free room. Takes no memory.
    pub fn input(&mut self, tree: &Tree) -> Result<Id, EvalFault>
        ensures id { IfOk result (IsIdOf self.new.arena.objects tree.now) }
        ensures objects { AddsCellsOf tree.now self.old.arena.objects self.new.arena.objects }
        ensures cells { IsErrOf result fault.Cells ↔ HasNoRoomFor self.old.arena tree.now }
        ensures only { IsErr result → IsErrOf result fault.Cells }
        ensures whole { IsWhole self.new.arena }
        ensures settings { KeepsSettings self.old self.new }
        ensures memos { self.new.memos ≡ self.old.memos }
        ensures tables { self.new.tables ≡ self.old.tables }
        ensures fits { (w : WorldSeen) → Fits w self.old → Fits w self.new }
    {
        match self.arena.place(tree) {
            Ok(id) => Ok(id),
            Err(_) => Err(EvalFault::Cells),
        }
    }

    /// The value of a term in an environment. A variable that the environment does not name is NIL.
    ///
    /// Ok is the value's id, and no value of the plain evaluation is an integer outside 128 bits. The arena has grown by
    /// cells of values of visited subterms alone. Each refusal but want of memory has its cause on this very environment:
    /// Width, where some value of the plain evaluation is such an integer; Steps, where the cost in which each different
    /// call of the memoized functions is opened once exceeds the limit; Cells, where the cells that were held and those
    /// that the evaluation speaks of are more different objects than the limit. After a refusal the arena stands as before,
    /// no call is kept and no list has a table.
    pub fn eval(&mut self, world: &World, term: &Term, env: &Env) -> Result<Id, EvalFault>
        requires fits { Fits world.now self.old }
        requires term { IsTermOf world.now.definitions (term_of term.now) }
        requires env { All (IsLiveBinding self.old.arena.objects) env.now }
        ensures value { IfOk result (IsValueOf world.now (env_of self.old.arena.objects env.now) (term_of term.now) self.new.arena.objects) }
        ensures fault { IsLicensed world.now self.old.functions (env_of self.old.arena.objects env.now) (term_of term.now) self.old.steps self.old.arena result }
        ensures fits { Fits world.now self.new }
        ensures grown { HasGrown self.old.arena.objects self.new.arena.objects }
        ensures cells { OnOk result (HoldsSeen world.now (env_of self.old.arena.objects env.now) (term_of term.now) self.old.arena.objects self.new.arena.objects) }
        ensures settings { KeepsSettings self.old self.new }
        ensures refused { OnErr result (IsRefused self.old self.new) }
    {
        let setting = Setting {
            world,
            functions: self.functions.as_slice(),
            alloc: self.alloc,
        };
        evaluate(
            &setting,
            term,
            env.as_slice(),
            self.steps,
            &mut self.arena,
            &mut self.alists,
            &mut self.memos,
        )
    }

    /// The count of cells now.
    pub fn mark(&self) -> Mark
        ensures count { result.count ≡ length self.now.arena.objects }
        ensures whole { IsWhole self.now.arena }
        ensures live { All (IsLiveEntry self.now.arena.objects) self.now.memos }
    {
        self.arena.mark()
    }

    /// Takes away the cells made after the mark, the kept calls and the tables of lists. The cells made before it stay with
    /// their ids.
    pub fn back(&mut self, mark: Mark)
        requires { mark.count ≤ length self.old.arena.objects }
        ensures objects { self.new.arena.objects ≡ take mark.count self.old.arena.objects }
        ensures settings { KeepsSettings self.old self.new }
        ensures memos { self.new.memos ≡ [] }
        ensures tables { self.new.tables ≡ [] }
        ensures fits { (w : WorldSeen) → Fits w self.old → Fits w self.new }
    {
        forget(&mut self.memos, &mut self.alists);
        self.arena.release(mark);
    }

    /// The arena.
    pub fn arena(&self) -> &HonsArena
        ensures { result.now ≡ self.now.arena }
    {
        &self.arena
    }

    /// Lends the arena, with no call kept and no list with a table. All else stays: a world that the machine fitted it fits
    /// still.
    pub fn arena_mut(&mut self) -> &mut HonsArena
        ensures* writes_back { sem 𝓛 (LendsArena self.entry result) }
        ensures arena { result.now ≡ self.old.arena }
    {
        forget(&mut self.memos, &mut self.alists);
        &mut self.arena
    }
}

/// No call is kept any more, and no list has a table.
fn forget(calls: &mut MemoTables, lists: &mut FastAlists)
    ensures calls { calls.new ≡ [] }
    ensures lists { lists.new ≡ [] }
{
    calls.clear();
    lists.clear();
}

/// Takes over the memoized functions, and places the constants of a world in an empty arena where it is not known that they
/// fit its limit.
fn set_up(
    alloc: Global,
    world: &World,
    memoized: &FnSet,
    arena: &mut HonsArena,
    functions: &mut Vec<u64>,
) -> Result<(), EvalFault>
    requires { arena.old.objects ≡ [] }
    ensures functions { OnOk result (functions.new.items ≡ memoized.now) }
    ensures only { OnOk result (All (Contains (constant_cells world.now)) arena.new.objects) }
    ensures cells { RefusesForCells world.now arena.old.limit result }
    ensures limit { arena.new.limit ≡ arena.old.limit }
{
    *functions = numbers_of(alloc, memoized)?;
    let bound = world.constant_cells();
    let limit = u64::from(arena.limit());
    if bound <= limit {
        return Ok(());
    }
    let constants = constants_in(alloc, world)?;
    Ok(place_all(arena, constants.as_slice())?)
}

/// The numbers of functions, in their order.
fn numbers_of(alloc: Global, memoized: &FnSet) -> Result<Vec<u64>, NoMemory>
    ensures { IfOk result (λ v. v.items ≡ memoized.now) }
{
    let mut numbers = Vec::new(alloc);
    for i in 0..memoized.len() {
        numbers.push(memoized.at(i).number)?;
    }
    Ok(numbers)
}
