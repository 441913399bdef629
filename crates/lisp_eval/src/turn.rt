//! One turn of the evaluator's loop: what is done with a focus.

ghost use Rattle.std.specs.Prelude.{◌<◌, length};
ghost use Rattle.fast_alists.specs.Tables.{Agree};
ghost use Rattle.gl_logic.specs.Every.{Every};
ghost use Rattle.gl_logic.specs.TermOf.{term_of};
ghost use Rattle.hons_arena.specs.Held.{IsWhole};
ghost use Rattle.hons_arena.specs.Ids.{IsLive};
ghost use Rattle.lisp_eval.specs.Bindings.{id_or_nil};
ghost use Rattle.lisp_eval.specs.Gives.{Gives};
ghost use Rattle.lisp_eval.specs.Turns.{CallTellsIn, VisitTellsIn, prim_on};

use crate::attempt::{Setting, Stop};
use crate::bindings::{id_at, look};
use crate::calls::{Known, look_up, open};
use crate::frame::{Binding, Focus, Frame, PLACES};
use crate::frameless::{Reached, advance};
use crate::halt::{Cause, Halt};
use crate::primitives::{PrimFault, primitive};
use crate::steps::visit;
use fast_alists::FastAlists;
use gl_logic::{FnId, NoMemory, Prim, Term};
use hons_arena::{HonsArena, Id};
use memo_tables::MemoTables;
use smallvec::SmallVec;
use std::rc::Rc;

/// Visits a term: goes on as far as there is no need of a frame, to a value or to another term, and else into its first
/// part.
#[inline(always)]
pub fn visit_term<'a>(
    setting: &Setting<'a>,
    arena: &mut HonsArena,
    alists: &mut FastAlists,
    frames: &mut Vec<Frame<'a>>,
    term: &'a Term,
    env: Rc<Vec<Binding>>,
    left: &mut u64,
) -> Result<Focus<'a>, Halt>
    requires whole { IsWhole arena.old }
    requires env { Every (λ b. IsLive arena.old.objects b.value) env.value.items }
    requires agree { Agree arena.old.objects alists.old }
    requires left { 0 < left.old }
    ensures tells { VisitTellsIn setting.now env.value.items (term_of term.now) left.old left.new arena.old arena.new frames.old.items frames.new.items result }
    ensures agree { Agree arena.new.objects alists.new }
{
    match term {
        Term::Var(name) => {
            *left -= 1;
            Ok(Focus::Give(look(env.as_ref().as_slice(), *name)))
        }
        Term::Const(tree) => match arena.place(tree) {
            Ok(id) => {
                *left -= 1;
                Ok(Focus::Give(id))
            }
            Err(_) => Err(Halt::Stop(Cause::Cells)),
        },
        _ => match advance(setting, arena, alists, term, &env, *left) {
            Ok(reached) => match reached {
                Reached::Value(id, rest) => {
                    *left = rest;
                    Ok(Focus::Give(id))
                }
                Reached::Term(next, inner, rest) => {
                    *left = rest;
                    Ok(Focus::Visit(next, inner))
                }
            },
            Err(Stop::Beyond) => {
                *left -= 1;
                Ok(visit(term, env, setting.alloc, frames)?)
            }
            Err(Stop::Full) => Err(Halt::Stop(Cause::Cells)),
            Err(Stop::Memory) => Err(Halt::Memory),
        },
    }
}

/// The value of a primitive on the first two of some values.
#[inline(always)]
pub fn apply_primitive(arena: &mut HonsArena, prim: Prim, values: &[Id]) -> Result<Id, PrimFault>
    requires x { IsLive arena.old.objects (id_or_nil values.now 0) }
    requires y { IsLive arena.old.objects (id_or_nil values.now 1) }
    ensures { Gives arena.old arena.new (prim_on arena.old.objects prim values.now) result }
{
    primitive(arena, prim, id_at(values, 0), id_at(values, 1))
}

/// Goes on with a call that tables do not answer: its value is there where it is kept, and else it is opened.
#[inline(always)]
pub fn apply_call<'a>(
    setting: &Setting<'a>,
    memos: &MemoTables,
    frames: &mut Vec<Frame<'a>>,
    f: FnId,
    values: SmallVec<Id, PLACES>,
) -> Result<Focus<'a>, NoMemory>
    requires { f.number < length setting.now.world.now.definitions }
    ensures { CallTellsIn setting.now f.number values.items memos.now frames.old.items frames.new.items result }
{
    let known = look_up(
        setting.alloc,
        memos,
        setting.functions,
        f,
        values.as_slice(),
    )?;
    match known {
        Known::Value(id) => Ok(Focus::Give(id)),
        Known::Opens(keep) => open(f, values, keep, setting.world, setting.alloc, frames),
    }
}
