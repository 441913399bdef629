//! The verdict that a symbolic decision is.

ghost use Rattle.std.specs.Prelude.{◌≡◌, IfOk, MatchOption};
ghost use Rattle.gl_decide.specs.Answered.{HasAssignment, HasVerdict, IsRunOut, IsTold};
ghost use Rattle.gl_decide.specs.Bounds.{bounds_of};
ghost use Rattle.shape_spec.specs.TheoremSeen.{theorem_seen};

use super::stall::StallCause;
use super::verdict::Verdict;
use gl_base::limits::Limits;
use gl_logic::NoMemory;
use gl_symbolic::Decision;
use shape_spec::{Thm, input_of};
use std::alloc::Global;

/// Why a decision ran out, if it did.
pub(crate) fn cause_of(decision: &Decision, limits: &Limits) -> Option<StallCause>
    ensures { MatchOption result (HasVerdict decision.now) (IsRunOut (bounds_of limits.now) decision.now) }
{
    match decision {
        Decision::Full => Some(StallCause::Nodes(limits.nodes)),
        Decision::Spent => Some(StallCause::Clauses(limits.clauses)),
        _ => None,
    }
}

/// The verdict that a decision is, with the input of its assignment.
///
/// # Errors
///
/// `NoMemory` where memory was refused.
pub(crate) fn verdict_of(alloc: Global, thm: &Thm, decision: Decision) -> Result<Verdict, NoMemory>
    requires decided { HasVerdict decision }
    requires assignment { HasAssignment (theorem_seen thm.now) decision }
    ensures { IfOk result (IsTold (theorem_seen thm.now) decision) }
{
    let b = &thm.bindings;
    match decision {
        Decision::Proved => Ok(Verdict::Proved),
        Decision::Vacuous => Ok(Verdict::Vacuous),
        Decision::Refuted(a) => Ok(Verdict::Refuted(input_of(alloc, b, &a)?)),
        Decision::Clock(part, a) => Ok(Verdict::Clock(part, input_of(alloc, b, &a)?)),
        Decision::Width(part, a) => Ok(Verdict::Width(part, input_of(alloc, b, &a)?)),
        Decision::Steps(part, a) => Ok(Verdict::Steps(part, input_of(alloc, b, &a)?)),
        Decision::Cells(part, a) => Ok(Verdict::Cells(part, input_of(alloc, b, &a)?)),
        Decision::Full | Decision::Spent => unreachable!(),
        Decision::Memory => Err(NoMemory),
    }
}
