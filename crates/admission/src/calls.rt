//! The recursive calls of a body, in their order.

ghost use Rattle.std.specs.Prelude.{◌+◌, map, Ok};
ghost use Rattle.gl_logic.specs.TermOf.{term_of, terms_of};
ghost use Rattle.admission.specs.Signatures.{signature_of, signature_at};
ghost use Rattle.admission.specs.Numbers.{behind, behind_all, behind_call, Counts};

use super::caller::Caller;
use super::fault::AdmitFault;
use super::member::{Member, find};
use gl_logic::Term;

/// The number behind the last call of a member in a term, where `next` is the first one's. The fault has the
/// number of the first call that is no step. Takes no memory: that is the answer where 64 bits do not hold a number.
#[cycle(calls)]
pub(crate) fn calls(
    term: &Term,
    members: &[Member],
    first: u64,
    caller: Caller,
    next: u64,
) -> Result<u64, AdmitFault>
    ensures { Counts (behind (signature_at first (map signature_of members.now)) (term_of term.now) caller next) result }
{
    match term {
        Term::Var(_) => Ok(next),
        Term::Const(_) => Ok(next),
        Term::If(test, then, otherwise) => {
            let next = calls(test, members, first, caller, next)?;
            let next = calls(then, members, first, caller.under(test, true), next)?;
            calls(otherwise, members, first, caller.under(test, false), next)
        }
        Term::Prim(_, terms) => calls_in_all(terms.as_slice(), members, first, caller, next),
        Term::Call(f, terms) => {
            let next = call(members, first, f.number, terms.as_slice(), caller, next)?;
            calls_in_all(terms.as_slice(), members, first, caller, next)
        }
        Term::Let(names, terms, body) => {
            let next = calls_in_all(terms.as_slice(), members, first, caller, next)?;
            calls(body, members, first, caller.below(names), next)
        }
    }
}

#[cycle(calls)]
fn calls_in_all(
    terms: &[Term],
    members: &[Member],
    first: u64,
    caller: Caller,
    next: u64,
) -> Result<u64, AdmitFault>
    ensures { Counts (behind_all (signature_at first (map signature_of members.now)) (terms_of terms.now) caller next) result }
{
    let mut reached = next;
    for term in terms {
        reached = calls(term, members, first, caller, reached)?;
    }
    Ok(reached)
}

/// The number behind a call of definition f, which may be no member.
fn call(
    members: &[Member],
    first: u64,
    f: u64,
    actuals: &[Term],
    caller: Caller,
    next: u64,
) -> Result<u64, AdmitFault>
    ensures { Counts (behind_call (signature_at first (map signature_of members.now) f) (terms_of actuals.now) caller next) result }
{
    match find(members, first, f) {
        None => Ok(next),
        Some(callee) => {
            if caller.steps(callee.measure, callee.formals, actuals) {
                after(next)
            } else {
                Err(AdmitFault::NotAdmitted(next))
            }
        }
    }
}

/// The next number.
fn after(n: u64) -> Result<u64, AdmitFault>
    ensures { Counts (Ok (n + 1)) result }
{
    if n < u64::MAX {
        Ok(n + 1)
    } else {
        Err(AdmitFault::Memory)
    }
}
