//! What a clause is where some literals are true.

/// What a clause is where some literals are true.
#[derive(Clone, Copy, Debug, PartialEq, Eq)]
pub enum ClauseStatus {
    /// All its literals are false.
    Conflict,
    /// All but this one are false, and this one has no value.
    Unit(i32),
    /// Neither of the two.
    Neither,
}
