//! Which keywords there are.

/// Whose keywords are looked at.
#[derive(Clone, Copy, Debug, PartialEq, Eq)]
pub enum KeywordTable {
    /// Those of `xargs`.
    Xargs,
    /// The options of `def-gl-thm`.
    Theorem,
    /// The options of `def-gl-param-thm`.
    ParamTheorem,
}
