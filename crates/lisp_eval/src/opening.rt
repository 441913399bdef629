//! Which definitions are opened at once.

ghost use Rattle.std.specs.Prelude.{◌<◌, IfSome, IsTrue};
ghost use Rattle.lisp_eval.specs.Directs.{OpensAtOnce};

use crate::calls::{is_answered, is_memoized};
use gl_logic::{FnId, Term, World};

/// How many subterms the body of a definition that is opened at once may have.
const SUBTERMS: u64 = 32;

/// Whether a definition is opened at once: it is neither memoized nor answered by tables, and its body may well be
/// evaluated at once.
pub fn opens_at_once(world: &World, functions: &[u64], f: FnId) -> bool
    ensures { IsTrue result → OpensAtOnce world.now.definitions functions.now f.number }
{
    if f.number >= world.count() || is_memoized(functions, f) || is_answered(world, f) {
        return false;
    }
    plain_within(&world.def(f).body, SUBTERMS).is_some()
}

/// How many of so many subterms are left behind those of a term that has no calls and binds nothing. None for any other term,
/// and where it has more.
#[cycle(plain_within)]
fn plain_within(term: &Term, subterms: u64) -> Option<u64>
    ensures { IfSome result (λ left. left < subterms) }
{
    if subterms == 0 {
        return None;
    }
    match term {
        Term::Var(_) => Some(subterms - 1),
        Term::Const(_) => Some(subterms - 1),
        Term::If(test, then, otherwise) => {
            let behind_test = plain_within(test, subterms - 1)?;
            let behind_then = plain_within(then, behind_test)?;
            plain_within(otherwise, behind_then)
        }
        Term::Prim(_, terms) => {
            let mut left = subterms - 1;
            for part in terms.as_slice() {
                left = plain_within(part, left)?;
            }
            Some(left)
        }
        Term::Call(_, _) => None,
        Term::Let(_, _, _) => None,
    }
}
