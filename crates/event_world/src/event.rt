//! Events.

use gl_cases::ParamThm;
use gl_logic::{Def, Defs, FnId, Names, Term, TextId};
use shape_spec::{Mode, Thm};

/// An event of a book, as ACL2 and GL have them.
#[derive(Drop)]
pub enum Event {
    /// `in-package`, or `include-book` of GL's own book.
    Nothing,
    /// A named event whose form equals the accepted one of that name.
    Redundant(TextId),
    /// A definition, admitted.
    Defun(Def),
    /// A constant, whose value is that of the term.
    Defconst(TextId, Term),
    /// A value to print.
    Value(Term),
    /// A value that is not to be NIL.
    Assert(Term),
    /// A function whose calls are kept from now on.
    Memoize(FnId),
    /// A function whose calls are no longer kept.
    Unmemoize(FnId),
    /// How later theorems are decided.
    Mode(Mode),
    /// A theorem to decide.
    Theorem(Thm),
    /// A theorem to prove by cases.
    Cases(ParamThm),
    /// Definitions that may call one another, admitted together.
    Clique(Defs),
    /// The names of a clique whose members' forms equal the accepted ones, in order.
    RedundantClique(Names),
}
