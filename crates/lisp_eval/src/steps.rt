//! The steps that make no call and no cell.

ghost use Rattle.std.specs.Prelude.{OnOk};
ghost use Rattle.gl_logic.specs.TermOf.{term_of};
ghost use Rattle.hons_arena.specs.Ids.{object_at, IsLive};
ghost use Rattle.lisp_eval.specs.Compound.{IsCompound};
ghost use Rattle.lisp_eval.specs.Kept.{KeepsCall};
ghost use Rattle.lisp_eval.specs.Nexts.{Begins, Enters, Hands};

use crate::frame::{Binding, Focus, Frame, PLACES, Work};
use crate::value::Value;
use gl_logic::{NoMemory, Term};
use hons_arena::{HonsArena, Id};
use memo_tables::MemoTables;
use smallvec::SmallVec;
use std::alloc::Global;
use std::rc::Rc;

/// The first of some terms is visited, or the work is done.
pub fn begin<'a>(
    work: Work<'a>,
    done: SmallVec<Id, PLACES>,
    terms: &'a [Term],
    env: Rc<Vec<Binding>>,
    frames: &mut Vec<Frame<'a>>,
) -> Result<Focus<'a>, NoMemory>
    ensures next { Begins work.entry done.items terms.now env.value.items frames.old.items frames.new.items result }
{
    if terms.is_empty() {
        return Ok(Focus::Apply(work, done, env));
    }
    let inner = env.clone()?;
    frames.push(Frame::Arguments(work, done, &terms[1..], env))?;
    Ok(Focus::Visit(&terms[0], inner))
}

/// Goes into a term with parts.
pub fn visit<'a>(
    term: &'a Term,
    env: Rc<Vec<Binding>>,
    alloc: Global,
    frames: &mut Vec<Frame<'a>>,
) -> Result<Focus<'a>, NoMemory>
    requires { IsCompound (term_of term.now) }
    ensures parts { IsCompound (term_of term.now) }
    ensures next { Enters (term_of term.now) env.value.items frames.old.items frames.new.items result }
{
    match term {
        Term::Var(_) => unreachable!(),
        Term::Const(_) => unreachable!(),
        Term::If(test, then, otherwise) => {
            let inner = env.clone()?;
            frames.push(Frame::Branch(then, otherwise, env))?;
            Ok(Focus::Visit(test, inner))
        }
        Term::Prim(prim, terms) => begin(
            Work::Prim(*prim),
            SmallVec::new(alloc),
            terms.as_slice(),
            env,
            frames,
        ),
        Term::Call(f, terms) => {
            begin(
                Work::Call(*f),
                SmallVec::new(alloc),
                terms.as_slice(),
                env,
                frames,
            )
        }
        Term::Let(names, terms, body) => begin(
            Work::Let(names, body),
            SmallVec::new(alloc),
            terms.as_slice(),
            env,
            frames,
        ),
    }
}

/// Hands a value to a frame. The call of a frame that is to be kept is kept then.
pub fn hand<'a>(
    frame: Frame<'a>,
    value: Id,
    arena: &HonsArena,
    memos: &mut MemoTables,
    frames: &mut Vec<Frame<'a>>,
) -> Result<Focus<'a>, NoMemory>
    requires live { IsLive arena.now.objects value }
    ensures next { Hands arena.now.objects frame.entry (object_at arena.now.objects value) frames.old.items frames.new.items result }
    ensures keeps { OnOk result (KeepsCall frame.entry value memos.old memos.new) }
{
    match frame {
        Frame::Branch(then, otherwise, env) => {
            if Value::of(value).is_nil(arena) {
                Ok(Focus::Visit(otherwise, env))
            } else {
                Ok(Focus::Visit(then, env))
            }
        }
        Frame::Arguments(work, done, terms, env) => {
            let mut done = done;
            done.push(value)?;
            begin(work, done, terms, env, frames)
        }
        Frame::Keep(call) => {
            match memos.look(&call) {
                Some(_) => Ok(Focus::Give(value)),
                None => {
                    memos.keep(call, value)?;
                    Ok(Focus::Give(value))
                }
            }
        }
    }
}
