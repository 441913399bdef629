//! A primitive on symbolic objects, by a work list.

ghost use Rattle.std.specs.Prelude.{◌≡◌, ◌≤◌, ◌∷◌, ℕ, Bool, true, length, map, IfOk, IfErr, OnOk};
ghost use Rattle.gl_logic.specs.PrimValue.{prim_arity, prim_of, prim_value};
ghost use Rattle.int_prims.specs.Integers.{IsTooWide};
ghost use Rattle.std.specs.List.{All};
ghost use Rattle.sym_objects.specs.Seen.{IsLive, IsWhole, stands_for};
ghost use Rattle.sym_prims.specs.Applying.{Applies, HasCause, Leaves};
ghost use Rattle.sym_prims.specs.Frames.{AreBranches, AreFrames, IsRightFor, IsTask, Steps, cars_of, cdrs_of, value_of};
ghost use Rattle.sym_prims.specs.Memos.{IsMemo};
ghost use Rattle.sym_prims.specs.Seeing.{IsOfParts, IsSimpleIn, takes_two};
ghost use Rattle.sym_objects.specs.Nodes.{kind_of, node_at};
ghost use Rattle.sym_prims.specs.declared.frames.Focus.TheVariants as focus;
ghost use Rattle.sym_prims.specs.declared.frames.Frame.TheVariants as frame;
ghost use Rattle.sym_prims.specs.declared.frames.Joining.TheVariants as joining;

use super::answers::join;
use super::fault::SymFault;
use super::frames::{Focus, Frame, Joining, Task};
use super::kinds::{choice_of, conses_of, second_choice};
use super::memo::{Memo, key_of};
use super::nodes::Conses;
use super::parts::cons;
use super::simple::simple;
use super::store_calls::{complement, conjunction, is_unreached};
use bfr_store::{Bits, Edge};
use gl_logic::{NoMemory, Prim};
use std::alloc::Global;
use sym_objects::{Sob, Sobs, Stack};

/// The application under another path.
fn under(task: Task, path: Edge) -> Task
    ensures { result ≡ record task { path = path } }
{
    Task {
        first: task.first,
        second: task.second,
        path,
    }
}

/// The application to another first object.
fn with_first(task: Task, first: Sob) -> Task
    ensures { result ≡ record task { first = first } }
{
    Task {
        first,
        second: task.second,
        path: task.path,
    }
}

/// The application to another second object.
fn with_second(task: Task, second: Sob) -> Task
    ensures { result ≡ record task { second = second } }
{
    Task {
        first: task.first,
        second,
        path: task.path,
    }
}

/// Puts two frames: the application's answer is to be kept, and it is made of an answer that comes and that of another
/// application.
fn push_two(
    frames: &mut Stack<Frame>,
    task: Task,
    joining: Joining,
    other: Task,
) -> Result<(), NoMemory>
    ensures { OnOk result (frames.new ≡ frame.Second joining other ∷ frame.Keep task ∷ frames.old) }
{
    frames.push(Frame::Keep(task))?;
    frames.push(Frame::Second(joining, other))
}

/// Takes an application apart that is one of two by a test, each under its part of the path. One that no assignment reaches
/// is left out.
fn split<B: Bits>(
    alloc: Global,
    objs: &mut Sobs<B>,
    prim: Prim,
    test: Edge,
    task: Task,
    then: Task,
    other: Task,
    frames: &mut Stack<Frame>,
) -> Result<Focus, SymFault>
    requires whole { IsWhole B.Meaning objs.old }
    requires test { B.live objs.old.store test }
    requires task { IsTask B.Meaning objs.old task }
    requires branches { AreBranches B.Meaning objs.old prim test task then other }
    requires frames { AreFrames B.Meaning objs.old frames.old }
    ensures leaves { Leaves B.Meaning objs.old objs.new }
    ensures step { IfOk result (λ f. Steps B.Meaning prim objs.old objs.new frames.old frames.new (focus.Apply task) f) }
    ensures cause { IfErr result (λ f. HasCause B.Meaning objs.new task.path (λ a. IsTooWide (value_of B.Meaning objs.old prim task a)) f) }
{
    let yes = conjunction(objs, task.path, test)?;
    let only_other = is_unreached(alloc, objs, yes)?;
    if only_other {
        return Ok(Focus::Apply(other));
    }
    let refuted = complement(objs, test);
    let no = conjunction(objs, task.path, refuted)?;
    let only_then = is_unreached(alloc, objs, no)?;
    if only_then {
        return Ok(Focus::Apply(then));
    }
    push_two(frames, task, Joining::Choice(test), under(other, no))?;
    Ok(Focus::Apply(under(then, yes)))
}

/// Takes the equality of two conses apart.
fn part(task: Task, conses: Conses, frames: &mut Stack<Frame>) -> Result<Focus, NoMemory>
    ensures frames { OnOk result (frames.new ≡ frame.Second joining.Both (cdrs_of task conses) ∷ frame.Keep task ∷ frames.old) }
    ensures focus { IfOk result (λ f. f ≡ focus.Apply (cars_of task conses)) }
{
    let cars = Task {
        first: conses.first_car,
        second: conses.second_car,
        path: task.path,
    };
    let cdrs = Task {
        first: conses.first_cdr,
        second: conses.second_cdr,
        path: task.path,
    };
    push_two(frames, task, Joining::Both, cdrs)?;
    Ok(Focus::Apply(cars))
}

/// The application's value, where its objects are no choices and not two conses whose equality is asked.
fn work_out<B: Bits>(
    alloc: Global,
    objs: &mut Sobs<B>,
    prim: Prim,
    task: Task,
    frames: &mut Stack<Frame>,
) -> Result<Focus, SymFault>
    requires whole { IsWhole B.Meaning objs.old }
    requires task { IsTask B.Meaning objs.old task }
    requires frames { AreFrames B.Meaning objs.old frames.old }
    requires first { IsSimpleIn objs.old task.first }
    requires second { takes_two prim ≡ true → IsSimpleIn objs.old task.second }
    requires apart { IsOfParts prim (kind_of (node_at objs.old.nodes task.first)) (kind_of (node_at objs.old.nodes task.second)) → ⊥ }
    ensures leaves { Leaves B.Meaning objs.old objs.new }
    ensures step { IfOk result (λ f. Steps B.Meaning prim objs.old objs.new frames.old frames.new (focus.Apply task) f) }
    ensures cause { IfErr result (λ f. HasCause B.Meaning objs.new task.path (λ a. IsTooWide (value_of B.Meaning objs.old prim task a)) f) }
{
    // Read for the frames' values: they stay as they are.
    let _frames = frames;
    Ok(Focus::Give(simple(alloc, objs, prim, task)?))
}

/// Looks at an application whose objects are no choices.
fn look_at_both<B: Bits>(
    alloc: Global,
    objs: &mut Sobs<B>,
    prim: Prim,
    task: Task,
    frames: &mut Stack<Frame>,
) -> Result<Focus, SymFault>
    requires whole { IsWhole B.Meaning objs.old }
    requires task { IsTask B.Meaning objs.old task }
    requires frames { AreFrames B.Meaning objs.old frames.old }
    requires first { IsSimpleIn objs.old task.first }
    requires second { takes_two prim ≡ true → IsSimpleIn objs.old task.second }
    ensures leaves { Leaves B.Meaning objs.old objs.new }
    ensures step { IfOk result (λ f. Steps B.Meaning prim objs.old objs.new frames.old frames.new (focus.Apply task) f) }
    ensures cause { IfErr result (λ f. HasCause B.Meaning objs.new task.path (λ a. IsTooWide (value_of B.Meaning objs.old prim task a)) f) }
{
    let (first, second) = (objs.node_of(task.first), objs.node_of(task.second));
    match conses_of(prim, first, second) {
        Some(conses) => Ok(part(task, conses, frames)?),
        None => work_out(alloc, objs, prim, task, frames),
    }
}

/// Looks at an application whose first object is no choice.
fn look_at_second<B: Bits>(
    alloc: Global,
    objs: &mut Sobs<B>,
    prim: Prim,
    task: Task,
    frames: &mut Stack<Frame>,
) -> Result<Focus, SymFault>
    requires whole { IsWhole B.Meaning objs.old }
    requires task { IsTask B.Meaning objs.old task }
    requires frames { AreFrames B.Meaning objs.old frames.old }
    requires first { IsSimpleIn objs.old task.first }
    ensures leaves { Leaves B.Meaning objs.old objs.new }
    ensures step { IfOk result (λ f. Steps B.Meaning prim objs.old objs.new frames.old frames.new (focus.Apply task) f) }
    ensures cause { IfErr result (λ f. HasCause B.Meaning objs.new task.path (λ a. IsTooWide (value_of B.Meaning objs.old prim task a)) f) }
{
    let node = objs.node_of(task.second);
    match second_choice(prim, node) {
        Some(c) => {
            let (then, other) = (with_second(task, c.then), with_second(task, c.other));
            split(alloc, objs, prim, c.test, task, then, other, frames)
        }
        None => look_at_both(alloc, objs, prim, task, frames),
    }
}

/// Looks at an application.
fn look_at_first<B: Bits>(
    alloc: Global,
    objs: &mut Sobs<B>,
    prim: Prim,
    task: Task,
    frames: &mut Stack<Frame>,
) -> Result<Focus, SymFault>
    requires whole { IsWhole B.Meaning objs.old }
    requires task { IsTask B.Meaning objs.old task }
    requires frames { AreFrames B.Meaning objs.old frames.old }
    ensures leaves { Leaves B.Meaning objs.old objs.new }
    ensures step { IfOk result (λ f. Steps B.Meaning prim objs.old objs.new frames.old frames.new (focus.Apply task) f) }
    ensures cause { IfErr result (λ f. HasCause B.Meaning objs.new task.path (λ a. IsTooWide (value_of B.Meaning objs.old prim task a)) f) }
{
    let node = objs.node_of(task.first);
    match choice_of(node) {
        Some(c) => {
            let (then, other) = (with_first(task, c.then), with_first(task, c.other));
            split(alloc, objs, prim, c.test, task, then, other, frames)
        }
        None => look_at_second(alloc, objs, prim, task, frames),
    }
}

/// The answer of an application that is kept, or the next step to it.
fn visit<B: Bits>(
    alloc: Global,
    objs: &mut Sobs<B>,
    prim: Prim,
    task: Task,
    memo: &Memo,
    frames: &mut Stack<Frame>,
) -> Result<Focus, SymFault>
    requires whole { IsWhole B.Meaning objs.old }
    requires task { IsTask B.Meaning objs.old task }
    requires frames { AreFrames B.Meaning objs.old frames.old }
    requires memo { IsMemo B.Meaning objs.old prim memo.now }
    ensures leaves { Leaves B.Meaning objs.old objs.new }
    ensures step { IfOk result (λ f. Steps B.Meaning prim objs.old objs.new frames.old frames.new (focus.Apply task) f) }
    ensures cause { IfErr result (λ f. HasCause B.Meaning objs.new task.path (λ a. IsTooWide (value_of B.Meaning objs.old prim task a)) f) }
{
    match memo.look(key_of(task)) {
        Some(known) => Ok(Focus::Give(known)),
        None => look_at_first(alloc, objs, prim, task, frames),
    }
}

/// Hands an answer to a frame.
fn give<B: Bits>(
    alloc: Global,
    objs: &mut Sobs<B>,
    prim: Prim,
    value: Sob,
    frame: Frame,
    memo: &mut Memo,
    frames: &mut Stack<Frame>,
) -> Result<Focus, SymFault>
    requires whole { IsWhole B.Meaning objs.old }
    requires value { IsLive objs.old value }
    requires frames { AreFrames B.Meaning objs.old (frame ∷ frames.old) }
    requires memo { IsMemo B.Meaning objs.old prim memo.old }
    requires right { IsRightFor B.Meaning objs.old prim frame value }
    ensures leaves { Leaves B.Meaning objs.old objs.new }
    ensures step { IfOk result (λ f. Steps B.Meaning prim objs.old objs.new (frame ∷ frames.old) frames.new (focus.Give value) f) }
    ensures memo { IfOk result (λ f. IsMemo B.Meaning objs.new prim memo.new) }
    ensures cause { IfErr result (λ f. (e : _) → HasCause B.Meaning objs.new e (λ a. ⊥) f) }
{
    // Read for the primitive by which the frame's value is right.
    let _prim = prim;
    match frame {
        Frame::Second(joining, task) => {
            frames.push(Frame::Last(joining, value))?;
            Ok(Focus::Apply(task))
        }
        Frame::Last(joining, first) => Ok(Focus::Give(join(alloc, objs, joining, first, value)?)),
        Frame::Keep(task) => {
            memo.keep(key_of(task), value)?;
            Ok(Focus::Give(value))
        }
    }
}

/// The application, to its end.
fn run<B: Bits>(alloc: Global, objs: &mut Sobs<B>, prim: Prim, task: Task) -> Result<Sob, SymFault>
    requires whole { IsWhole B.Meaning objs.old }
    requires task { IsTask B.Meaning objs.old task }
    ensures applies { Applies B.Meaning objs.old objs.new result task.path (value_of B.Meaning objs.old prim task) }
{
    let mut memo = Memo::new(alloc);
    let mut frames = Stack::new(alloc);
    let mut focus = Focus::Apply(task);
    loop {
        match focus {
            Focus::Apply(next) => focus = visit(alloc, objs, prim, next, &memo, &mut frames)?,
            Focus::Give(value) => match frames.pop() {
                None => return Ok(value),
                Some(frame) => {
                    focus = give(alloc, objs, prim, value, frame, &mut memo, &mut frames)?;
                }
            },
        }
    }
}

/// The application, to its end. A cons has no need of its objects.
fn work<B: Bits>(alloc: Global, objs: &mut Sobs<B>, prim: Prim, task: Task) -> Result<Sob, SymFault>
    requires whole { IsWhole B.Meaning objs.old }
    requires task { IsTask B.Meaning objs.old task }
    ensures applies { Applies B.Meaning objs.old objs.new result task.path (value_of B.Meaning objs.old prim task) }
{
    match prim {
        Prim::Cons => cons(objs, task.first, task.second),
        _ => run(alloc, objs, prim, task),
    }
}

/// The value of a primitive under a path: the answer stands for it under each assignment that makes the path true.
///
/// A choice of two objects is taken apart, each under its part of the path, and one that no assignment reaches is not
/// looked at. The equality of two conses is that of their parts. Both go by a work list, and what is met again under the same
/// path is done once. Integers are computed at their full width: `Wide` comes with an assignment that makes the path true
/// and under which the logic's integer leaves 128 bits. These are the symbolic counterparts of GL (Swords and Davis,
/// "Bit-blasting ACL2 theorems", section 3).
#[tactic(auto, using(crate::proofs::Arguments::arity_some))]
pub fn apply<B: Bits>(
    alloc: Global,
    objs: &mut Sobs<B>,
    prim: Prim,
    args: &[Sob],
    path: Edge,
) -> Result<Sob, SymFault>
    requires whole { IsWhole B.Meaning objs.old }
    requires path { B.live objs.old.store path }
    requires args { All (IsLive objs.old) args.now }
    requires count { length args.now ≡ prim_arity prim }
    ensures applies { Applies B.Meaning objs.old objs.new result path (λ a. prim_value prim (map (λ x. stands_for B.Meaning objs.old x a) args.now)) }
{
    let (first, second) = (args[0], args[args.len() - 1]);
    let task = Task {
        first,
        second,
        path,
    };
    work(alloc, objs, prim, task)
}
