//! What is left of an answer whose lines are written: its stall, which is kept, and its value.

ghost use Rattle.std.specs.Prelude.{◌≡◌, ◌++◌, IfOk, OnOk, OnErr};
ghost use Rattle.gl_book.specs.Entry.{cases_stalls, stalls_of, verdict_stalls};
ghost use Rattle.gl_book.specs.Walk.{value_in};

use super::answer::Answer;
use super::cases::CasesVerdict;
use gl_decide::{Stalls, Verdict};
use gl_logic::{NoMemory, Tree};

/// Takes an answer apart: its stall, where it has one, is put last among the others, and its value is handed on, NIL
/// where it has none.
pub fn settle_answer(answer: Answer, stalls: &mut Stalls) -> Result<Tree, NoMemory>
    ensures value { IfOk result (λ x. x ≡ value_in answer) }
    ensures kept { OnOk result (stalls.new ≡ stalls.old ++ stalls_of answer) }
    ensures err { OnErr result (stalls.new ≡ stalls.old) }
{
    match answer {
        Answer::Value(value) => Ok(value),
        Answer::Decided(verdict) => {
            keep_stall(verdict, stalls)?;
            Ok(Tree::nil())
        }
        Answer::ByCases(verdict) => {
            keep_part_stall(verdict, stalls)?;
            Ok(Tree::nil())
        }
        Answer::Done | Answer::Function(_) | Answer::Truth(_) | Answer::Undecided(_) => {
            Ok(Tree::nil())
        }
    }
}

/// Puts the stall of a verdict last, where it has one.
///
/// # Errors
///
/// `NoMemory` where memory was refused; the stalls are then as before.
pub fn keep_stall(verdict: Verdict, stalls: &mut Stalls) -> Result<(), NoMemory>
    ensures kept { OnOk result (stalls.new ≡ stalls.old ++ verdict_stalls verdict) }
    ensures err { OnErr result (stalls.new ≡ stalls.old) }
{
    match verdict {
        Verdict::Nodes(stall) => stalls.push(stall),
        Verdict::Clauses(stall) => stalls.push(stall),
        _ => Ok(()),
    }
}

/// Puts the stall of the part whose cause is told last, where it has one.
fn keep_part_stall(verdict: CasesVerdict, stalls: &mut Stalls) -> Result<(), NoMemory>
    ensures kept { OnOk result (stalls.new ≡ stalls.old ++ cases_stalls verdict) }
    ensures err { OnErr result (stalls.new ≡ stalls.old) }
{
    match verdict {
        CasesVerdict::Cover(verdict) | CasesVerdict::Case(_, verdict) => {
            keep_stall(verdict, stalls)
        }
        CasesVerdict::Proved
        | CasesVerdict::Vacuous
        | CasesVerdict::Refuted(_)
        | CasesVerdict::Uncased(_) => Ok(()),
    }
}
