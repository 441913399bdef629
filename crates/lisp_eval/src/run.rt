//! The evaluator's loop.

ghost use Rattle.std.specs.Prelude.{◌≡◌, IfOk, OnOk};
ghost use Rattle.gl_logic.specs.IsTermOf.{IsTermOf};
ghost use Rattle.gl_logic.specs.TermOf.{term_of};
ghost use Rattle.fast_alists.specs.Tables.{Agree};
ghost use Rattle.hons_arena.specs.Held.{IsWhole};
ghost use Rattle.lisp_eval.specs.Answers.{FitMemos, HasGrown};
ghost use Rattle.lisp_eval.specs.Nexts.{AnsweredIn, HoldsSeenIn, Stand};
ghost use Rattle.lisp_eval.specs.Turns.{TurnsTellIn};

use crate::attempt::Setting;
use crate::calls::{bound, is_answered};
use crate::frame::{Binding, Focus, Work};
use crate::halt::{Cause, Halt};
use crate::steps::hand;
use crate::tables::answer;
use crate::turn::{apply_call, apply_primitive, visit_term};
use fast_alists::FastAlists;
use gl_logic::{NoMemory, Term};
use hons_arena::{HonsArena, Id};
use memo_tables::MemoTables;
use std::rc::Rc;

/// The value of a term, or why there is none. A call of a memoized function that is kept is not opened again.
pub fn run<'a>(
    setting: &Setting<'a>,
    term: &'a Term,
    env: Rc<Vec<Binding>>,
    limit: u64,
    arena: &mut HonsArena,
    alists: &mut FastAlists,
    memos: &mut MemoTables,
) -> Result<Result<Id, Cause>, NoMemory>
    requires term { IsTermOf setting.now.world.now.definitions (term_of term.now) }
    requires env { Stand arena.old.objects env.value.items }
    requires whole { IsWhole arena.old }
    requires alists { Agree arena.old.objects alists.old }
    requires memos { FitMemos setting.now.world.now.definitions arena.old.objects memos.old }
    ensures answer { IfOk result (AnsweredIn setting.now env.value.items (term_of term.now) limit arena.old arena.new) }
    ensures memos { IfOk result (λ r. OnOk r (FitMemos setting.now.world.now.definitions arena.new.objects memos.new)) }
    ensures cells { IfOk result (λ r. OnOk r (HoldsSeenIn setting.now env.value.items (term_of term.now) arena.old.objects arena.new.objects)) }
    ensures alists { IfOk result (λ r. OnOk r (Agree arena.new.objects alists.new)) }
    ensures grown { HasGrown arena.old.objects arena.new.objects }
    ensures limit { arena.new.limit ≡ arena.old.limit }
{
    match take_turns(setting, term, env, limit, arena, alists, memos) {
        Ok(id) => Ok(Ok(id)),
        Err(Halt::Stop(cause)) => Ok(Err(cause)),
        Err(Halt::Memory) => Err(NoMemory),
    }
}

/// Goes from focus to focus until the value is there.
fn take_turns<'a>(
    setting: &Setting<'a>,
    term: &'a Term,
    env: Rc<Vec<Binding>>,
    limit: u64,
    arena: &mut HonsArena,
    alists: &mut FastAlists,
    memos: &mut MemoTables,
) -> Result<Id, Halt>
    requires term { IsTermOf setting.now.world.now.definitions (term_of term.now) }
    requires env { Stand arena.old.objects env.value.items }
    requires whole { IsWhole arena.old }
    requires alists { Agree arena.old.objects alists.old }
    requires memos { FitMemos setting.now.world.now.definitions arena.old.objects memos.old }
    ensures { TurnsTellIn setting.now env.value.items (term_of term.now) limit arena.old arena.new alists.new memos.new result }
{
    // Read for what it tells of the world: every term of it has a value.
    let _count = setting.world.count();
    let mut frames = Vec::new(setting.alloc);
    let mut focus = Focus::Visit(term, env);
    let mut left = limit;
    loop {
        focus = match focus {
            Focus::Visit(t, inner) => {
                if left == 0 {
                    return Err(Halt::Stop(Cause::Steps));
                }
                visit_term(setting, arena, alists, &mut frames, t, inner, &mut left)?
            }
            Focus::Apply(work, values, outer) => match work {
                Work::Prim(p) => Focus::Give(apply_primitive(arena, p, values.as_slice())?),
                Work::Call(f) => {
                    if is_answered(setting.world, f) {
                        Focus::Give(answer(arena, alists, f, values.as_slice())?)
                    } else {
                        apply_call(setting, memos, &mut frames, f, values)?
                    }
                }
                Work::Let(names, body) => bound(names, body, values, outer, setting.alloc)?,
            },
            Focus::Give(value) => match frames.pop() {
                None => return Ok(value),
                Some(frame) => hand(frame, value, arena, memos, &mut frames)?,
            },
        };
    }
}
