//! Laws of the plain evaluation of terms. Each is the contract of a function that does nothing.

ghost use Rattle.std.specs.Prelude.{◌≡◌, ℕ, ◌≤◌, List, [], Some};
ghost use Rattle.gl_logic.specs.Object.{Object};
ghost use Rattle.gl_logic.specs.Definition.{Definition};
ghost use Rattle.gl_logic.specs.Exp.{Exp};
ghost use Rattle.gl_logic.specs.Walk.{Walk, walk};
ghost use Rattle.gl_logic.specs.Evaluate.{evaluate, HasValue};
ghost use Rattle.gl_logic.specs.WorldSeen.{WorldSeen};
ghost use Rattle.gl_logic.specs.Counts.{seen, cost, calls, own_cost, memoized_cost};
ghost use Rattle.gl_logic.specs.CellCounts.{cells, cells_made, distinct_cells};
ghost use Rattle.gl_logic.specs.FreeVariables.{is_free_in, AgreeOn};

/// More depth keeps a walk, and so a value.
pub fn deeper_keeps()
    ensures { (definitions : List Definition) (n m : ℕ) (env : List (ℕ × Object)) (t : Exp) (r : Walk) → n ≤ m → walk definitions n env t ≡ Some r → walk definitions m env t ≡ Some r }
{}

/// A term has at most one value.
pub fn value_is_unique()
    ensures { (definitions : List Definition) (env : List (ℕ × Object)) (t : Exp) (x y : Object) → HasValue definitions env t x → HasValue definitions env t y → x ≡ y }
{}

/// Environments that give a term's free variables the same objects give it the same walk, and so the
/// same value, visits and calls. Cells are also those of the environment's other objects.
pub fn free_variables_decide()
    ensures { (definitions : List Definition) (n : ℕ) (first second : List (ℕ × Object)) (t : Exp) → AgreeOn (is_free_in t) first second → walk definitions n first t ≡ walk definitions n second t }
{}

/// Counts do not depend on which sufficient depth is taken.
pub fn depth_does_not_count()
    ensures seen { (definitions : List Definition) (n m : ℕ) (env : List (ℕ × Object)) (t : Exp) (x y : Object) → evaluate definitions n env t ≡ Some x → evaluate definitions m env t ≡ Some y
        → seen definitions n env t ≡ seen definitions m env t }
    ensures cost { (definitions : List Definition) (n m : ℕ) (env : List (ℕ × Object)) (t : Exp) (x y : Object) → evaluate definitions n env t ≡ Some x → evaluate definitions m env t ≡ Some y
        → cost definitions n env t ≡ cost definitions m env t }
    ensures calls { (definitions : List Definition) (functions : List ℕ) (n m : ℕ) (env : List (ℕ × Object)) (t : Exp) (x y : Object) → evaluate definitions n env t ≡ Some x → evaluate definitions m env t ≡ Some y
        → calls definitions functions n env t ≡ calls definitions functions m env t }
    ensures own { (definitions : List Definition) (functions : List ℕ) (n m : ℕ) (env : List (ℕ × Object)) (t : Exp) (x y : Object) → evaluate definitions n env t ≡ Some x → evaluate definitions m env t ≡ Some y
        → own_cost definitions functions n env t ≡ own_cost definitions functions m env t }
    ensures memoized { (definitions : List Definition) (functions : List ℕ) (n m : ℕ) (env : List (ℕ × Object)) (t : Exp) (x y : Object) → evaluate definitions n env t ≡ Some x → evaluate definitions m env t ≡ Some y
        → memoized_cost definitions functions n env t ≡ memoized_cost definitions functions m env t }
    ensures cells { (w : WorldSeen) (n m : ℕ) (env : List (ℕ × Object)) (t : Exp) (x y : Object) → evaluate w.definitions n env t ≡ Some x → evaluate w.definitions m env t ≡ Some y
        → cells w n env t ≡ cells w m env t }
{}

/// Where no function is memoized, the memoized cost is the cost.
pub fn nothing_memoized()
    ensures { (definitions : List Definition) (n : ℕ) (env : List (ℕ × Object)) (t : Exp) → memoized_cost definitions [] n env t ≡ cost definitions n env t }
{}

/// The distinct cells are at most the cells made.
pub fn distinct_at_most_made()
    ensures { (w : WorldSeen) (n : ℕ) (env : List (ℕ × Object)) (t : Exp) → distinct_cells w n env t ≤ cells_made w n env t }
{}
