//! The answers of a scan's pieces, joined to one in the order of the pieces.

ghost use Rattle.std.specs.Prelude.{◌≡◌, ◌||◌, false};
ghost use Rattle.gl_decide.specs.Pieces.{joined_with};

use super::scanned::Scan;

/// One of two facts, as a call that contracts see.
fn either(a: bool, b: bool) -> bool
    ensures { result ≡ (a || b) }
{
    a || b
}

/// The first answer that is not clean; where there is none, whether some piece has an input that meets the hypothesis.
pub(crate) fn joined(answers: &[Scan]) -> Scan
    ensures { result ≡ joined_with false answers.now }
{
    let mut met = false;
    for answer in answers {
        match answer {
            Scan::Clean(some) => met = either(met, *some),
            Scan::Refutes(number) => return Scan::Refutes(*number),
            Scan::Stopped(number, part, fault) => return Scan::Stopped(*number, *part, *fault),
            Scan::Memory => return Scan::Memory,
        }
    }
    Scan::Clean(met)
}
