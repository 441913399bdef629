//! The texts of a proof.

/// Which of them is written.
#[derive(Clone, Copy, Debug, PartialEq, Eq)]
pub enum ProofPart {
    /// The clauses that nothing satisfies, in DIMACS.
    Cnf,
    /// The log that shows it, in LRAT.
    Log,
}
