//! Calls whose arguments are constant: the machine evaluates them.

ghost use Rattle.std.specs.Prelude.{◌≡◌, ℕ, Bool, [], Some, All, IfOk, IfErr, IsTrue, length};
ghost use Rattle.gl_logic.specs.ConstantCall.{constant_call};
ghost use Rattle.gl_logic.specs.Evaluate.{HasValue};
ghost use Rattle.gl_logic.specs.IsTermOf.{arity_in};
ghost use Rattle.gl_logic.specs.TermOf.{term_of};
ghost use Rattle.gl_logic.specs.WorldSeen.{WorldSeen};
ghost use Rattle.lisp_eval.specs.Machines.{Fits};
ghost use Rattle.sym_objects.specs.Keeps.{Keeps};
ghost use Rattle.sym_objects.specs.Seen.{IsConstant, IsLive, IsWhole, stands_for};
ghost use Rattle.gl_interp.specs.Calls.{HasCallCause, values_under};
ghost use Rattle.gl_interp.specs.Causes.{Rests};
ghost use Rattle.gl_interp.specs.Placed.{Grows, HasPlaced, LacksCells, PlacesOne, variable_call};

use bfr_store::Bits;
use gl_logic::{FnId, NoMemory, Term, TextId, World};
use hons_arena::Id;
use lisp_eval::{Env, EvalFault, Machine};
use std::alloc::Global;
use sym_objects::{Sob, SobFault, Sobs};

/// Why a call on constants has no constant node.
#[derive(Clone, Copy, Debug, PartialEq, Eq)]
pub enum CallFault {
    /// The table of symbolic objects holds as many nodes as its limit allows.
    Full,
    /// The machine refused the call.
    Eval(EvalFault),
}

/// Whether all of these nodes are constant.
pub(crate) fn are_constant<B: Bits>(objs: &Sobs<B>, xs: &[Sob]) -> bool
    requires { All (IsLive objs.now) xs.now }
    ensures { IsTrue result → All (IsConstant B.Meaning objs.now) xs.now }
{
    for x in xs {
        if !objs.is_constant(*x) {
            return false;
        }
    }
    true
}

/// The constant node of the value of a call on constant nodes. The machine's arena stands as before afterwards.
pub(crate) fn call<B: Bits>(
    alloc: Global,
    objs: &mut Sobs<B>,
    machine: &mut Machine,
    world: &World,
    f: FnId,
    args: &[Sob],
) -> Result<Sob, CallFault>
    requires whole { IsWhole B.Meaning objs.old }
    requires args { All (IsLive objs.old) args.now }
    requires constant { All (IsConstant B.Meaning objs.old) args.now }
    requires fits { Fits world.now machine.old }
    requires arity { arity_in world.now.definitions f.number ≡ Some (length args.now) }
    ensures keeps { Keeps B.Meaning objs.old objs.new }
    ensures live { IfOk result (λ r. IsLive objs.new r) }
    ensures value { IfOk result (λ r. (a : ℕ → Bool) → HasValue world.now.definitions [] (constant_call f.number (values_under B.Meaning objs.old args.now a)) (stands_for B.Meaning objs.new r a)) }
    ensures cause { IfErr result (λ c. (a : ℕ → Bool) → HasCallCause B.Meaning objs.new world.now machine.old f.number (values_under B.Meaning objs.old args.now a) c) }
    ensures rests { Rests machine.old machine.new }
{
    let mark = machine.mark();
    let answer = called(alloc, objs, machine, world, f, args);
    machine.back(mark);
    answer
}

/// The same, which leaves the arena grown.
fn called<B: Bits>(
    alloc: Global,
    objs: &mut Sobs<B>,
    machine: &mut Machine,
    world: &World,
    f: FnId,
    args: &[Sob],
) -> Result<Sob, CallFault>
    requires whole { IsWhole B.Meaning objs.old }
    requires args { All (IsLive objs.old) args.now }
    requires constant { All (IsConstant B.Meaning objs.old) args.now }
    requires fits { Fits world.now machine.old }
    requires arity { arity_in world.now.definitions f.number ≡ Some (length args.now) }
    ensures keeps { Keeps B.Meaning objs.old objs.new }
    ensures live { IfOk result (λ r. IsLive objs.new r) }
    ensures value { IfOk result (λ r. (a : ℕ → Bool) → HasValue world.now.definitions [] (constant_call f.number (values_under B.Meaning objs.old args.now a)) (stands_for B.Meaning objs.new r a)) }
    ensures cause { IfErr result (λ c. (a : ℕ → Bool) → HasCallCause B.Meaning objs.new world.now machine.old f.number (values_under B.Meaning objs.old args.now a) c) }
    ensures grows { Grows machine.old machine.new }
{
    let env = match place(alloc, objs, machine, args) {
        Ok(env) => env,
        Err(fault) => return Err(CallFault::Eval(fault)),
    };
    let term = match call_of_variables(alloc, f, args.len() as u64) {
        Ok(term) => term,
        Err(_) => return Err(CallFault::Eval(EvalFault::Memory)),
    };
    let id = match machine.eval(world, &term, &env) {
        Ok(id) => id,
        Err(fault) => return Err(CallFault::Eval(fault)),
    };
    match objs.constant(alloc, machine.arena(), id) {
        Ok(node) => Ok(node),
        Err(SobFault::Full) => Err(CallFault::Full),
        Err(SobFault::Memory) => Err(CallFault::Eval(EvalFault::Memory)),
    }
}

/// Places the objects of constant nodes, and binds variables 0, 1, 2 and so on to their ids.
fn place<B: Bits>(
    alloc: Global,
    objs: &Sobs<B>,
    machine: &mut Machine,
    args: &[Sob],
) -> Result<Env, EvalFault>
    requires whole { IsWhole B.Meaning objs.now }
    requires args { All (IsLive objs.now) args.now }
    requires constant { All (IsConstant B.Meaning objs.now) args.now }
    ensures placed { IfOk result (λ env. (a : ℕ → Bool) → HasPlaced (values_under B.Meaning objs.now args.now a) machine.old machine.new env) }
    ensures cause { IfErr result (λ f. (a : ℕ → Bool) → LacksCells (values_under B.Meaning objs.now args.now a) machine.old f) }
    ensures grows { Grows machine.old machine.new }
    ensures fits { (w : WorldSeen) → Fits w machine.old → Fits w machine.new }
{
    let mut env = Env::new(alloc);
    for i in 0..args.len() {
        match place_one(alloc, objs, machine, args[i]) {
            Ok(id) => {
                let Ok(()) = env.push(TextId { number: i as u64 }, id) else {
                    return Err(EvalFault::Memory);
                };
            }
            Err(fault) => return Err(fault),
        }
    }
    Ok(env)
}

/// Places the object of a constant node.
fn place_one<B: Bits>(
    alloc: Global,
    objs: &Sobs<B>,
    machine: &mut Machine,
    x: Sob,
) -> Result<Id, EvalFault>
    requires whole { IsWhole B.Meaning objs.now }
    requires live { IsLive objs.now x }
    requires constant { IsConstant B.Meaning objs.now x }
    ensures places { (a : ℕ → Bool) → PlacesOne (stands_for B.Meaning objs.now x a) machine.old machine.new result }
{
    // Read for what it tells of the machine's arena: no cell is there twice.
    let _held = machine.mark();
    match objs.to_arena(alloc, x, machine.arena_mut()) {
        Ok(id) => Ok(id),
        Err(SobFault::Full) => Err(EvalFault::Cells),
        Err(SobFault::Memory) => Err(EvalFault::Memory),
    }
}

/// The call of a definition on variables 0, 1, 2 and so on.
fn call_of_variables(alloc: Global, f: FnId, count: u64) -> Result<Term, NoMemory>
    ensures { IfOk result (λ t. term_of t ≡ variable_call f.number count) }
{
    let mut terms = Vec::new(alloc);
    for number in 0..count {
        terms.push(Term::Var(TextId { number }))?;
    }
    Ok(Term::Call(f, terms))
}
