//! A definition alone.

ghost use Rattle.std.specs.Prelude.{◌≡◌, ◌↔◌, None, IfOk, Err};
ghost use Rattle.gl_logic.specs.TermOf.{term_of};
ghost use Rattle.admission.specs.Admitted.{HasNoCalls, IsAdmissibleAlone, IsBeyond, Tells, TellsRefused, first_formal, measured as measured_told, number_for_first, refused_alone, verdict};

use super::caller::Caller;
use super::calls::calls;
use super::fault::AdmitFault;
use super::member::Member;
use gl_logic::{FnId, Measure, Names, Term};

/// The measure under which a definition of the number f is admitted: none where its body has no call of f,
/// and else the one that is stated. Where none is stated, it is `(acl2-count v)` of the first formal v under
/// which each recursive call is a step; where there is no such formal, the number of the fault is that for
/// the first formal, and 1 where there are no formals. Takes no memory, which is the answer only where the
/// body has more recursive calls than 64 bits number.
pub fn admit(
    f: FnId,
    formals: &Names,
    body: &Term,
    stated: Option<Measure>,
) -> Result<Option<Measure>, AdmitFault>
    ensures none { IfOk result (λ m. (m ≡ None) ↔ HasNoCalls f.number formals.now (term_of body.now)) }
    ensures admissible { IfOk result (λ m. IsAdmissibleAlone f.number formals.now (term_of body.now) m) }
    ensures verdict { Tells (IsBeyond f.number formals.now (term_of body.now)) (verdict f.number formals.now (term_of body.now) stated) result }
{
    match refused(f, formals, body, None) {
        Ok(()) => Ok(None),
        Err(AdmitFault::NotAdmitted(_)) => measured(f, formals, body, stated),
        Err(AdmitFault::Memory) => Err(AdmitFault::Memory),
    }
}

/// The measure of a definition that has a recursive call.
fn measured(
    f: FnId,
    formals: &Names,
    body: &Term,
    stated: Option<Measure>,
) -> Result<Option<Measure>, AdmitFault>
    ensures { Tells (IsBeyond f.number formals.now (term_of body.now)) (measured_told (refused_alone f.number formals.now (term_of body.now)) formals.now stated) result }
{
    match stated {
        Some(_) => match refused(f, formals, body, stated) {
            Ok(()) => Ok(stated),
            Err(fault) => Err(fault),
        },
        None => default_measure(f, formals, body),
    }
}

/// The count of the first formal under which no call is refused.
fn default_measure(f: FnId, formals: &Names, body: &Term) -> Result<Option<Measure>, AdmitFault>
    ensures { Tells (IsBeyond f.number formals.now (term_of body.now)) (first_formal (refused_alone f.number formals.now (term_of body.now)) (number_for_first (refused_alone f.number formals.now (term_of body.now)) formals.now) formals.now) result }
{
    for i in 0..formals.len() {
        let measure = Some(Measure::Count(*formals.at(i)));
        match refused(f, formals, body, measure) {
            Ok(()) => return Ok(measure),
            Err(AdmitFault::NotAdmitted(_)) => {}
            Err(AdmitFault::Memory) => return Err(AdmitFault::Memory),
        }
    }
    Err(first_fault(f, formals, body))
}

/// The fault with the number of the first call that is refused for the first formal.
fn first_fault(f: FnId, formals: &Names, body: &Term) -> AdmitFault
    ensures { Tells (IsBeyond f.number formals.now (term_of body.now)) (Err (number_for_first (refused_alone f.number formals.now (term_of body.now)) formals.now)) (Err result) }
{
    if formals.len() == 0 {
        return AdmitFault::NotAdmitted(1);
    }
    match refused(f, formals, body, Some(Measure::Count(*formals.at(0)))) {
        Ok(()) => AdmitFault::NotAdmitted(1),
        Err(fault) => fault,
    }
}

/// Whether each call is a step under this measure, or the number of the first that is none.
fn refused(
    f: FnId,
    formals: &Names,
    body: &Term,
    measure: Option<Measure>,
) -> Result<(), AdmitFault>
    ensures { TellsRefused (IsBeyond f.number formals.now (term_of body.now)) (refused_alone f.number formals.now (term_of body.now) measure) result }
{
    let members = [Member { formals, measure }];
    match calls(body, &members, f.number, Caller::start(measure), 1) {
        Ok(_) => Ok(()),
        Err(fault) => Err(fault),
    }
}
