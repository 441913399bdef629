//! The counts of a transcript's last line.

ghost use Rattle.std.specs.Prelude.{◌≡◌, ◌<◌, ◌-◌, ◌^◌, [], IfOk};
ghost use Rattle.gl_book.specs.Lines.{done_line, is_proved, is_vacuous, is_refuted, is_undecided, is_failed, counts_of, status_by};
ghost use Rattle.gl_book.specs.Stops.{one_more, counts_with, HasRoom};

use super::answer::Answer;
use super::cases::CasesVerdict;
use gl_base::status::Status;
use gl_decide::Verdict;
use gl_logic::NoMemory;
use std::alloc::Global;

/// The numbers of a transcript's last line: of the theorems that are proved, vacuous and refuted, and of the
/// theorems, values and asserts that are left undecided. Beside them, how many asserted values are NIL.
#[derive(Clone, Copy, Debug, PartialEq, Eq)]
pub struct Counts {
    pub proved: u64,
    pub vacuous: u64,
    pub refuted: u64,
    pub undecided: u64,
    pub failed: u64,
}

/// Whether an answer is a theorem that is proved.
fn proved(answer: &Answer) -> bool
    ensures { result ≡ is_proved answer.now }
{
    matches!(
        answer,
        Answer::Decided(Verdict::Proved) | Answer::ByCases(CasesVerdict::Proved)
    )
}

/// Whether an answer is a theorem whose hypothesis nothing meets.
fn vacuous(answer: &Answer) -> bool
    ensures { result ≡ is_vacuous answer.now }
{
    matches!(
        answer,
        Answer::Decided(Verdict::Vacuous) | Answer::ByCases(CasesVerdict::Vacuous)
    )
}

/// Whether an answer is a theorem that is refuted.
fn refuted(answer: &Answer) -> bool
    ensures { result ≡ is_refuted answer.now }
{
    matches!(
        answer,
        Answer::Decided(Verdict::Refuted(_)) | Answer::ByCases(CasesVerdict::Refuted(_))
    )
}

/// Whether an answer leaves its event undecided.
fn undecided(answer: &Answer) -> bool
    ensures { result ≡ is_undecided answer.now }
{
    match answer {
        Answer::Done | Answer::Function(_) | Answer::Value(_) | Answer::Truth(_) => false,
        Answer::Undecided(_) => true,
        Answer::Decided(verdict) => {
            !matches!(
                verdict,
                Verdict::Proved | Verdict::Vacuous | Verdict::Refuted(_)
            )
        }
        Answer::ByCases(verdict) => {
            !matches!(
                verdict,
                CasesVerdict::Proved | CasesVerdict::Vacuous | CasesVerdict::Refuted(_)
            )
        }
    }
}

/// Whether an answer is an asserted value that is NIL.
fn failed(answer: &Answer) -> bool
    ensures { result ≡ is_failed answer.now }
{
    match answer {
        Answer::Truth(holds) => !*holds,
        _ => false,
    }
}

/// A count, with one more where that is due.
fn more(count: u64, one: bool) -> u64
    requires { count < 2 ^ 64 - 1 }
    ensures { result ≡ one_more one count }
{
    if one { count + 1 } else { count }
}

impl Counts {
    /// The counts before the first answer.
    pub fn none() -> Counts
        ensures { result ≡ counts_of [] }
    {
        Counts {
            proved: 0,
            vacuous: 0,
            refuted: 0,
            undecided: 0,
            failed: 0,
        }
    }

    /// The counts with one answer more.
    pub fn with(self, answer: &Answer) -> Counts
        requires { HasRoom self }
        ensures { result ≡ counts_with self answer.now }
    {
        Counts {
            proved: more(self.proved, proved(answer)),
            vacuous: more(self.vacuous, vacuous(answer)),
            refuted: more(self.refuted, refuted(answer)),
            undecided: more(self.undecided, undecided(answer)),
            failed: more(self.failed, failed(answer)),
        }
    }

    /// The last line.
    pub fn line(self, alloc: Global) -> Result<Vec<u8>, NoMemory>
        ensures { IfOk result (λ v. v.items ≡ done_line self) }
    {
        let proved = self.proved;
        let vacuous = self.vacuous;
        let refuted = self.refuted;
        let undecided = self.undecided;
        let line = format!(in alloc;
            "DONE proved={proved} vacuous={vacuous} refuted={refuted} undecided={undecided}\n"
        )?;
        Ok(line.as_bytes().to_vec(alloc)?)
    }

    /// The status of a book that is not refused.
    pub fn status(self) -> Status
        ensures { result ≡ status_by self }
    {
        if self.refuted > 0 || self.failed > 0 {
            Status::Refuted
        } else if self.undecided > 0 {
            Status::Undecided
        } else {
            Status::Good
        }
    }
}
