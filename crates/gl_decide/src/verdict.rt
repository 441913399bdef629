//! What a decision answers.

use super::stall::Stall;
use gl_logic::TextId;
use shape_spec::{Inputs, Part};

/// The answer on a theorem. An input that leaves it undecided comes with the part of the theorem that is looked at on it.
#[derive(Drop)]
pub enum Verdict {
    /// The conclusion is met wherever the hypothesis is, and some input meets the hypothesis.
    Proved,
    /// Nothing meets the hypothesis.
    Vacuous,
    /// An input that meets the hypothesis and makes the conclusion NIL.
    Refuted(Inputs),
    /// The first variable, in the order of the bindings, whose shape need not have all its objects that
    /// meet the hypothesis.
    Uncovered(TextId),
    /// More definitions would be opened inside one another than the part's clock allows.
    Clock(Part, Inputs),
    /// Some value on the way is an integer outside 128 bits.
    Width(Part, Inputs),
    /// The evaluation visits more subterms than the limit of steps.
    Steps(Part, Inputs),
    /// The evaluation speaks of more different cells than the limit of cells.
    Cells(Part, Inputs),
    /// The symbolic run needs more nodes than there may be, and the theorem has more indices than are scanned. The modes behind
    /// its own are tried too.
    Nodes(Stall),
    /// The search needs more clauses than it may learn, and the theorem has more indices than are scanned.
    Clauses(Stall),
    /// Memory was refused.
    Memory,
}
