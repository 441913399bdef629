//! What the definitions of verdicts and of scans are worth. The laws are the contracts of functions that do nothing.

ghost use Rattle.std.specs.Prelude.{◌≡◌, ℕ, Bool};
ghost use Rattle.gl_logic.specs.WorldSeen.{WorldSeen};
ghost use Rattle.gl_decide.specs.Agreement.{Agree};
ghost use Rattle.gl_decide.specs.Bounds.{Bounds};
ghost use Rattle.gl_decide.specs.Completeness.{IsDecided, StaysWithin};
ghost use Rattle.gl_decide.specs.Scans.{IsProperScan};
ghost use Rattle.shape_spec.specs.TheoremSeen.{TheoremSeen};
ghost use Rattle.gl_decide.specs.Verdicts.{IsCovered, IsLeastRefuting, IsProperVerdict};
ghost use Rattle.gl_decide.specs.declared.scanned.Scan.TheVariants.{Clean, Refutes};

use crate::verdict::Verdict;

/// No two proper verdicts on one theorem contradict each other, and those that name an uncovered variable name the same.
pub fn one_verdict()
    ensures agree { (w : WorldSeen) (bounds : Bounds) (thm : TheoremSeen) (v u : Verdict) → IsProperVerdict w bounds thm v → IsProperVerdict w bounds thm u → Agree v u }
{}

/// A covered theorem whose inputs all stay within the clocks, 128 bits, the steps and the cells is proved, vacuous or
/// refuted, unless memory is refused. It runs out of nodes or clauses only where it has more indices than are scanned.
pub fn covered_theorems_are_decided()
    ensures { (w : WorldSeen) (bounds : Bounds) (thm : TheoremSeen) (v : Verdict) → IsCovered thm → StaysWithin w bounds thm → IsProperVerdict w bounds thm v → IsDecided bounds thm v }
{}

/// A scan that refutes names the least number that does, of which there is one at most, and then no scan finds that none
/// does. So no two scans of one theorem contradict each other, however many workers they have.
pub fn one_refutation()
    ensures least { (w : WorldSeen) (bounds : Bounds) (thm : TheoremSeen) (k : ℕ) → IsProperScan w bounds thm (Refutes k) → IsLeastRefuting w thm k }
    ensures one { (w : WorldSeen) (thm : TheoremSeen) (j k : ℕ) → IsLeastRefuting w thm j → IsLeastRefuting w thm k → j ≡ k }
    ensures clean { (w : WorldSeen) (bounds : Bounds) (thm : TheoremSeen) (met : Bool) (k : ℕ) → IsProperScan w bounds thm (Clean met) → IsProperScan w bounds thm (Refutes k) → ⊥ }
{}
