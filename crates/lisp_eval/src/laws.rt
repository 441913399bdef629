//! Laws of an evaluation that carries finished calls along. Each is the contract of a function that does nothing.

ghost use Rattle.std.specs.Prelude.{ℕ, List};
ghost use Rattle.gl_logic.specs.Definition.{Definition};
ghost use Rattle.lisp_eval.specs.Costs.{HasPlainValues, CostsAtMostMemoized};

/// An evaluation that opens no call of a memoized function again once it is kept, and no call of a function that tables
/// answer, gives the plain value. From whatever calls are kept at its start, also those of earlier evaluations, it visits
/// at most as many subterms as the memoized cost says, which counts each different call of the memoized functions once.
pub fn kept_calls_cost_nothing()
    ensures value { (definitions : List Definition) (answered functions : List ℕ) → HasPlainValues definitions answered functions }
    ensures count { (definitions : List Definition) (answered functions : List ℕ) → CostsAtMostMemoized definitions answered functions }
{}
