//! Definitions of functions.

use super::ids::TextId;
use super::names::Names;
use super::term::Term;

/// A natural number that is told of a definition's formals.
#[derive(Clone, Copy, Debug, PartialEq, Eq)]
pub enum Natural {
    /// `(acl2-count v)`
    Count(TextId),
    /// `(len v)`
    Len(TextId),
    /// `(nfix v)`
    Nat(TextId),
    /// `(nfix (- b a))`, as `Gap(a, b)`
    Gap(TextId, TextId),
}

/// What falls at each recursive call of a definition.
#[derive(Clone, Copy, Debug, PartialEq, Eq)]
pub enum Measure {
    /// `(acl2-count v)`
    Count(TextId),
    /// `(len v)`
    Len(TextId),
    /// `(nfix v)`
    Nat(TextId),
    /// `(nfix (- b a))`, as `Gap(a, b)`
    Gap(TextId, TextId),
    /// `(make-ord 1 (+ 1 m1) m2)`: two natural numbers of which the first decides.
    Lex(Natural, Natural),
}

/// A definition: its name, the names of its formals in order, its body, and the measure under which it
/// was admitted where it is recursive.
#[derive(Drop)]
pub struct Def {
    pub name: TextId,
    pub formals: Names,
    pub body: Term,
    pub measure: Option<Measure>,
}
