//! Definitions that may call one another.

ghost use Rattle.std.specs.Prelude.{◌≡◌, map, IfOk};
ghost use Rattle.gl_logic.specs.DefinitionOf.{definition_of};
ghost use Rattle.gl_logic.specs.IsAdmissible.{IsAdmissible};
ghost use Rattle.admission.specs.Refused.{first_refused as refused_told};
ghost use Rattle.admission.specs.Admitted.{settled, settled_measure, with_measures, TellsRefused};
ghost use Rattle.admission.specs.Signatures.{signature_of, signature};

use super::caller::Caller;
use super::calls::calls;
use super::fault::AdmitFault;
use super::member::Member;
use gl_logic::{Def, Defs, FnId, Measure, Measures, NoMemory};
use std::alloc::Global;

/// The measures under which definitions are admitted that may call one another, of which the first has the
/// number `first`: for each the one that it states, or `(acl2-count v)` of its first formal v. A member that
/// has neither gets none, and no call in it or of it is a step.
pub fn admit_clique(alloc: Global, first: FnId, members: &Defs) -> Result<Measures, AdmitFault>
    ensures measures { IfOk result (λ m. m ≡ map settled_measure members.now) }
    ensures admissible { IfOk result (λ m. IsAdmissible first.number (with_measures members.now m)) }
    ensures refused { TellsRefused (Unit {0}) (refused_told first.number (map settled members.now)) result }
{
    let signatures = match signatures(alloc, members) {
        Ok(signatures) => signatures,
        Err(_) => return Err(AdmitFault::Memory),
    };
    match first_refused(members, signatures.as_slice(), first.number) {
        Err(fault) => Err(fault),
        Ok(()) => match measures(alloc, members) {
            Ok(measures) => Ok(measures),
            Err(_) => Err(AdmitFault::Memory),
        },
    }
}

/// What callers see of the members.
fn signatures<'a>(alloc: Global, members: &'a Defs) -> Result<Vec<Member<'a>>, NoMemory>
    ensures { IfOk result (λ v. map signature_of v.items ≡ map signature (map settled members.now)) }
{
    let mut all = Vec::new(alloc);
    for i in 0..members.len() {
        let def = members.at(i);
        all.push(Member {
            formals: &def.formals,
            measure: measure_of(def),
        })?;
    }
    Ok(all)
}

/// The members' measures.
fn measures(alloc: Global, members: &Defs) -> Result<Measures, NoMemory>
    ensures { IfOk result (λ m. m ≡ map settled_measure members.now) }
{
    let mut all = Measures::new(alloc);
    for i in 0..members.len() {
        all.push(measure_of(members.at(i)))?;
    }
    Ok(all)
}

/// A member's measure: the one that it states, or the count of its first formal.
fn measure_of(def: &Def) -> Option<Measure>
    ensures { result ≡ settled_measure (definition_of def.now) }
{
    match def.measure {
        Some(measure) => Some(measure),
        None => {
            if def.formals.len() == 0 {
                None
            } else {
                Some(Measure::Count(*def.formals.at(0)))
            }
        }
    }
}

/// Whether each call of a member in the members' bodies is a step, or the number of the first that is none.
fn first_refused(members: &Defs, signatures: &[Member], first: u64) -> Result<(), AdmitFault>
    requires { map signature_of signatures.now ≡ map signature (map settled members.now) }
    ensures { TellsRefused (Unit {0}) (refused_told first (map settled members.now)) result }
{
    let mut next = 1;
    for i in 0..members.len() {
        let def = members.at(i);
        match calls(
            &def.body,
            signatures,
            first,
            Caller::start(measure_of(def)),
            next,
        ) {
            Ok(behind) => next = behind,
            Err(fault) => return Err(fault),
        }
    }
    Ok(())
}
