//! Calls of definitions.

ghost use Rattle.std.specs.Prelude.{◌≡◌, ◌<◌, length, IfOk};
ghost use Rattle.gl_logic.specs.Counts.{is_among};
ghost use Rattle.gl_logic.specs.TermOf.{term_of};
ghost use Rattle.lisp_eval.specs.Kept.{IsKnown};
ghost use Rattle.lisp_eval.specs.Nexts.{Opens, Binds};
ghost use Rattle.lisp_eval.specs.Tables.{answered_in};

use crate::bindings::bind;
use crate::frame::{Binding, Focus, Frame, PLACES};
use crate::tables::{FAST_ALIST_FORK, HONS_ACONS};
use gl_logic::{FnId, Names, NoMemory, Term, World};
use hons_arena::Id;
use memo_tables::{MemoCall, MemoTables};
use smallvec::SmallVec;
use std::alloc::Global;
use std::rc::Rc;

/// What is known of a call.
#[derive(Drop)]
pub enum Known {
    /// Its value.
    Value(Id),
    /// It has to be opened. A call of a memoized function is to be kept then.
    Opens(Option<MemoCall>),
}

/// Whether calls of a function are kept.
#[tactic(auto, using(crate::proofs::Amongs::is_among_step))]
pub fn is_memoized(functions: &[u64], f: FnId) -> bool
    ensures { result ≡ is_among functions.now f.number }
{
    for g in functions {
        if f.number == *g {
            return true;
        }
    }
    false
}

/// Whether tables answer a function of a world: in one that has all of the ground definitions.
#[tactic(auto, using(crate::proofs::Amongs::answered_there, crate::proofs::Amongs::answered_nowhere, crate::proofs::Amongs::unanswered))]
pub fn is_answered(world: &World, f: FnId) -> bool
    ensures { result ≡ is_among (answered_in world.now.definitions) f.number }
{
    if f.number < HONS_ACONS || FAST_ALIST_FORK < f.number {
        return false;
    }
    world.count() > FAST_ALIST_FORK
}

/// Looks a call up.
pub fn look_up(
    alloc: Global,
    memos: &MemoTables,
    functions: &[u64],
    f: FnId,
    args: &[Id],
) -> Result<Known, NoMemory>
    ensures { IfOk result (IsKnown functions.now memos.now (record { function = f.number; arguments = args.now })) }
{
    if !is_memoized(functions, f) {
        return Ok(Known::Opens(None));
    }
    let call = MemoCall::of(alloc, f, args)?;
    match memos.look(&call) {
        Some(value) => Ok(Known::Value(value)),
        None => Ok(Known::Opens(Some(call))),
    }
}

/// Opens a call: its body is visited, with the formals bound to the arguments.
pub fn open<'a>(
    f: FnId,
    args: SmallVec<Id, PLACES>,
    keep: Option<MemoCall>,
    world: &'a World,
    alloc: Global,
    frames: &mut Vec<Frame<'a>>,
) -> Result<Focus<'a>, NoMemory>
    requires { f.number < length world.now.definitions }
    ensures next { Opens world.now.definitions f.number args.items keep frames.old.items frames.new.items result }
{
    let def = world.def(f);
    let env = Rc::new(alloc, bind(alloc, &def.formals, args.as_slice(), &[])?)?;
    match keep {
        None => Ok(Focus::Visit(&def.body, env)),
        Some(call) => {
            frames.push(Frame::Keep(call))?;
            Ok(Focus::Visit(&def.body, env))
        }
    }
}

/// Goes into the body of a `let`.
pub fn bound<'a>(
    names: &'a Names,
    body: &'a Term,
    values: SmallVec<Id, PLACES>,
    outer: Rc<Vec<Binding>>,
    alloc: Global,
) -> Result<Focus<'a>, NoMemory>
    ensures next { Binds names.now (term_of body.now) values.items outer.value.items result }
{
    let env = Rc::new(
        alloc,
        bind(alloc, names, values.as_slice(), outer.as_ref().as_slice())?,
    )?;
    Ok(Focus::Visit(body, env))
}
