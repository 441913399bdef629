//! The macros, and the words that name them.

/// A macro of the language, in the order of its table. ACL2's manual has each under its name.
#[derive(Clone, Copy, Debug, PartialEq, Eq)]
pub enum Macro {
    /// `(and ..)`
    And,
    /// `(or ..)`
    Or,
    /// `(cond (a b) ..)`
    Cond,
    /// `(case x (k v) ..)`
    Case,
    /// `(let ((v e) ..) b)`
    Let,
    /// `(let* ((v e) ..) b)`
    LetStar,
    /// `(list ..)`
    List,
    /// `(list* .. z)`
    ListStar,
    /// `(+ ..)`
    Plus,
    /// `(* ..)`
    Times,
    /// `(- a)`, `(- a b)`
    Minus,
    /// `(1+ a)`
    OneMore,
    /// `(1- a)`
    OneLess,
    /// `(<= a b)`
    AtMost,
    /// `(> a b)`
    Above,
    /// `(>= a b)`
    AtLeast,
    /// `(/= a b)`
    Unequal,
    /// `(append ..)`
    Append,
    /// `(logand ..)`
    Logand,
    /// `(logior ..)`
    Logior,
    /// `(logxor ..)`
    Logxor,
    /// `(member a b)`
    Member,
    /// `(first x)`
    First,
    /// `(second x)`
    Second,
    /// `(third x)`
    Third,
    /// `(fourth x)`
    Fourth,
    /// `(fifth x)`
    Fifth,
    /// `(rest x)`
    Rest,
    /// `(the s a)`
    The,
    /// `(mbe :logic a :exec b)`
    Mbe,
}
