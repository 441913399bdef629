//! Whether a term calls one of several definitions.

ghost use Rattle.std.specs.Prelude.{◌≡◌, ◌+◌, ◌<◌, ◌^◌, ◌≤◌};
ghost use Rattle.gl_logic.specs.TermOf.{term_of, terms_of};
ghost use Rattle.event_world.specs.CallsOf.{has_call as call_in, have_call as call_in_some, is_between};

use gl_logic::{FnId, Term};

/// Whether a definition is one of `count` from `first` on.
fn is_one_of(f: FnId, first: u64, count: u64) -> bool
    ensures { result ≡ is_between first count f.number }
{
    first <= f.number && f.number - first < count
}

/// Whether a term has a call of one of `count` definitions from `first` on.
#[cycle(calls)]
pub(crate) fn has_call(term: &Term, first: u64, count: u64) -> bool
    ensures { result ≡ call_in (is_between first count) (term_of term.now) }
{
    match term {
        Term::Var(_) => false,
        Term::Const(_) => false,
        Term::If(test, then, otherwise) => {
            has_call(test, first, count)
                || (has_call(then, first, count) || has_call(otherwise, first, count))
        }
        Term::Prim(_, terms) => have_call(terms.as_slice(), first, count),
        Term::Call(f, terms) => {
            is_one_of(*f, first, count) || have_call(terms.as_slice(), first, count)
        }
        Term::Let(_, terms, body) => {
            have_call(terms.as_slice(), first, count) || has_call(body, first, count)
        }
    }
}

#[cycle(calls)]
fn have_call(terms: &[Term], first: u64, count: u64) -> bool
    ensures { result ≡ call_in_some (is_between first count) (terms_of terms.now) }
{
    for term in terms {
        if has_call(term, first, count) {
            return true;
        }
    }
    false
}
