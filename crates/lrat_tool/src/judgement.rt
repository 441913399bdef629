//! What is said of a formula and a log.

/// What is said of a formula and a log.
#[derive(Clone, Copy, Debug, PartialEq, Eq)]
pub enum Judgement {
    /// The formula's text has not its form, first on this line.
    BadCnf(u32),
    /// The log's text has not its form, first on this line.
    BadLog(u32),
    /// The entry on this line has a hint below 0.
    Rat(u32),
    /// The entry on this line is not shown by its hints.
    NotShown(u32),
    /// No entry is the empty clause.
    NoRefutation,
    /// Each entry up to the first empty clause is shown by its hints: nothing satisfies the formula.
    Verified,
}
