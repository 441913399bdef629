//! Laws of hints. Each is the contract of a function that does nothing.

ghost use Rattle.std.specs.Prelude.{ℕ, ℤ, List, All};
ghost use Rattle.cnf_rup.specs.Literals.{IsClause, Follows};
ghost use Rattle.cnf_rup.specs.Shown.{IsShown};

/// Unit propagation in the order of the hints is sound: what they show follows.
pub fn shown_clauses_follow()
    ensures { (clauses : List (List ℤ)) (c : List ℤ) (hints : List ℕ) → All IsClause clauses → IsClause c → IsShown clauses c hints → Follows clauses c }
{}
