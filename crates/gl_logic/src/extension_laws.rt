//! Laws of lists of definitions that are extended. Each is the contract of a function that does nothing.

ghost use Rattle.std.specs.Prelude.{◌≡◌, ℕ, ◌<◌, List, ◌++◌, length, Some};
ghost use Rattle.gl_logic.specs.Object.{Object};
ghost use Rattle.gl_logic.specs.Definition.{Definition};
ghost use Rattle.gl_logic.specs.Exp.{Exp};
ghost use Rattle.gl_logic.specs.IsTermOf.{IsTermOf};
ghost use Rattle.gl_logic.specs.IsClosed.{IsClosed};
ghost use Rattle.gl_logic.specs.WorldSeen.{IsWorld};
ghost use Rattle.gl_logic.specs.Walk.{Walk, walk, body_walk};
ghost use Rattle.gl_logic.specs.Counts.{memoized_cost};

/// More definitions keep each walk that there is.
pub fn more_definitions_keep()
    ensures { (definitions more : List Definition) (n : ℕ) (env : List (ℕ × Object)) (t : Exp) (r : Walk) → walk definitions n env t ≡ Some r → walk (definitions ++ more) n env t ≡ Some r }
{}

/// Definitions behind those of a closed list, as every world is one, change neither the walk of a term
/// of that list, nor the own walk of a call, nor the costs.
pub fn more_definitions_change_nothing()
    ensures world { (definitions : List Definition) (cliques : List ℕ) → IsWorld definitions cliques → IsClosed definitions }
    ensures walk { (definitions more : List Definition) (n : ℕ) (env : List (ℕ × Object)) (t : Exp) → IsClosed definitions → IsTermOf definitions t → walk (definitions ++ more) n env t ≡ walk definitions n env t }
    ensures body { (definitions more : List Definition) (n f : ℕ) (args : List Object) → IsClosed definitions → f < length definitions → body_walk (definitions ++ more) n f args ≡ body_walk definitions n f args }
    ensures memoized { (definitions more : List Definition) (functions : List ℕ) (n : ℕ) (env : List (ℕ × Object)) (t : Exp) → IsClosed definitions → IsTermOf definitions t
        → memoized_cost (definitions ++ more) functions n env t ≡ memoized_cost definitions functions n env t }
{}
