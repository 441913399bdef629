//! The evaluator.

ghost use Rattle.std.specs.Prelude.{◌≡◌, ◌≤◌, [], All, IfOk, OnErr, OnOk, length, take};
ghost use Rattle.gl_logic.specs.IsTermOf.{IsTermOf};
ghost use Rattle.gl_logic.specs.TermOf.{term_of};
ghost use Rattle.fast_alists.specs.Tables.{Agree};
ghost use Rattle.hons_arena.specs.Held.{IsWhole};
ghost use Rattle.lisp_eval.specs.Answers.{IsValueOf, FitMemos, HasGrown, IsLiveBinding};
ghost use Rattle.lisp_eval.specs.Nexts.{AnsweredIn, HoldsSeenIn, IsLicensedIn};
ghost use Rattle.lisp_eval.specs.States.{env_of};

use crate::attempt::Setting;
use crate::fault::{EvalFault, fault_for};
use crate::frame::Binding;
use crate::halt::Cause;
use crate::run::run;
use fast_alists::FastAlists;
use gl_logic::{NoMemory, Term};
use hons_arena::{HonsArena, Id, Mark};
use memo_tables::MemoTables;
use std::rc::Rc;

/// The value of a term in an environment, within so many visits of subterms and the cells of the arena. A variable that
/// the environment does not name is NIL. A call of one of the functions is opened once for the same arguments: its value
/// is kept beside those that earlier evaluations kept.
///
/// After a refusal the arena stands as before, no call is kept and no list has a table. No depth of definitions opened inside one another is
/// too great: the evaluator has a stack of its own.
pub fn evaluate(
    setting: &Setting,
    term: &Term,
    env: &[Binding],
    steps: u64,
    arena: &mut HonsArena,
    alists: &mut FastAlists,
    memos: &mut MemoTables,
) -> Result<Id, EvalFault>
    requires term { IsTermOf setting.now.world.now.definitions (term_of term.now) }
    requires env { All (IsLiveBinding arena.old.objects) env.now }
    requires alists { Agree arena.old.objects alists.old }
    requires memos { FitMemos setting.now.world.now.definitions arena.old.objects memos.old }
    ensures value { IfOk result (IsValueOf setting.now.world.now (env_of arena.old.objects env.now) (term_of term.now) arena.new.objects) }
    ensures fault { IsLicensedIn setting.now env.now (term_of term.now) steps arena.old result }
    ensures memos { OnOk result (FitMemos setting.now.world.now.definitions arena.new.objects memos.new) }
    ensures cells { OnOk result (HoldsSeenIn setting.now env.now (term_of term.now) arena.old.objects arena.new.objects) }
    ensures alists { Agree arena.new.objects alists.new }
    ensures grown { HasGrown arena.old.objects arena.new.objects }
    ensures limit { arena.new.limit ≡ arena.old.limit }
    ensures refused { OnErr result (arena.new.objects ≡ arena.old.objects) }
    ensures emptied { OnErr result (memos.new ≡ []) }
    ensures tables { OnErr result (alists.new ≡ []) }
{
    let mark = arena.mark();
    match started(setting, term, env, steps, arena, alists, memos) {
        Err(_) => {
            refuse(arena, alists, memos, mark);
            Err(EvalFault::Memory)
        }
        Ok(answer) => match answer {
            Ok(id) => Ok(id),
            Err(cause) => {
                refuse(arena, alists, memos, mark);
                Err(fault_for(cause))
            }
        },
    }
}

/// The run, in an environment of its own.
fn started(
    setting: &Setting,
    term: &Term,
    env: &[Binding],
    steps: u64,
    arena: &mut HonsArena,
    alists: &mut FastAlists,
    memos: &mut MemoTables,
) -> Result<Result<Id, Cause>, NoMemory>
    requires term { IsTermOf setting.now.world.now.definitions (term_of term.now) }
    requires env { All (IsLiveBinding arena.old.objects) env.now }
    requires whole { IsWhole arena.old }
    requires alists { Agree arena.old.objects alists.old }
    requires memos { FitMemos setting.now.world.now.definitions arena.old.objects memos.old }
    ensures answer { IfOk result (AnsweredIn setting.now env.now (term_of term.now) steps arena.old arena.new) }
    ensures memos { IfOk result (λ r. OnOk r (FitMemos setting.now.world.now.definitions arena.new.objects memos.new)) }
    ensures cells { IfOk result (λ r. OnOk r (HoldsSeenIn setting.now env.now (term_of term.now) arena.old.objects arena.new.objects)) }
    ensures alists { IfOk result (λ r. OnOk r (Agree arena.new.objects alists.new)) }
    ensures grown { HasGrown arena.old.objects arena.new.objects }
    ensures limit { arena.new.limit ≡ arena.old.limit }
{
    let mut own = Vec::new(setting.alloc);
    own.extend_from_slice(env)?;
    let env = Rc::new(setting.alloc, own)?;
    run(setting, term, env, steps, arena, alists, memos)
}

/// Takes back what an evaluation added.
fn refuse(arena: &mut HonsArena, alists: &mut FastAlists, memos: &mut MemoTables, mark: Mark)
    requires { mark.count ≤ length arena.old.objects }
    ensures objects { arena.new.objects ≡ take mark.count arena.old.objects }
    ensures limit { arena.new.limit ≡ arena.old.limit }
    ensures emptied { memos.new ≡ [] }
    ensures tables { alists.new ≡ [] }
    ensures alists { Agree arena.new.objects alists.new }
{
    arena.release(mark);
    alists.clear();
    memos.clear();
}
