//! What cover is worth. Each law is the contract of a function that does nothing.
//!
//! The laws speak of all definitions whose first ones are the ground definitions, as far as there are any:
//! so of every world ([`gl_logic::ground_laws::ground_calls`]), and of no definitions at all.

ghost use Rattle.std.specs.Prelude.{◌≡◌, ℕ, ◌^◌, ◌<◌, Bool, List, None};
ghost use Rattle.gl_logic.specs.Object.{Object};
ghost use Rattle.gl_logic.specs.Definition.{Definition};
ghost use Rattle.gl_logic.specs.Exp.{Exp};
ghost use Rattle.gl_logic.specs.FreeVariables.{AgreeOn};
ghost use Rattle.gl_logic.specs.IsGround.{AreGround};
ghost use Rattle.shape_spec.specs.ShapeSeen.{ShapeSeen};
ghost use Rattle.shape_spec.specs.Indices.{width_of, IsBindings};
ghost use Rattle.shape_spec.specs.InputMeant.{input_meant, assignment_numbered};
ghost use Rattle.shape_spec.specs.Theorems.{IsMet, Holds};
ghost use Rattle.coverage.specs.Covered.{is_free_in_either, first_uncovered};
ghost use Rattle.coverage.specs.Sound.{AllAreBound};

/// Where nothing is uncovered, each environment that meets the hypothesis has the objects of some input,
/// as far as the free variables of hypothesis and conclusion go.
pub fn cover_is_sound()
    ensures { (definitions : List Definition) → AreGround definitions → (hyp concl : Exp) (b : List (ℕ × ShapeSeen)) → IsBindings b → AllAreBound hyp concl b → first_uncovered hyp concl b ≡ None
        → (env : List (ℕ × Object)) → IsMet definitions hyp env → (a : ℕ → Bool) × AgreeOn (is_free_in_either hyp concl) (input_meant b a) env }
{}

/// Where nothing is uncovered, the inputs of the numbers below 2 to the width decide the theorem: it holds
/// where the conclusion is met on each of them that meets the hypothesis, and the hypothesis is met nowhere
/// where none of them meets it.
pub fn inputs_decide()
    ensures holds { (definitions : List Definition) → AreGround definitions → (hyp concl : Exp) (b : List (ℕ × ShapeSeen)) → IsBindings b → AllAreBound hyp concl b → first_uncovered hyp concl b ≡ None
        → ((n : ℕ) → n < 2 ^ width_of b → IsMet definitions hyp (input_meant b (assignment_numbered n)) → IsMet definitions concl (input_meant b (assignment_numbered n)))
        → Holds definitions hyp concl }
    ensures never { (definitions : List Definition) → AreGround definitions → (hyp concl : Exp) (b : List (ℕ × ShapeSeen)) → IsBindings b → AllAreBound hyp concl b → first_uncovered hyp concl b ≡ None
        → ((n : ℕ) → n < 2 ^ width_of b → IsMet definitions hyp (input_meant b (assignment_numbered n)) → ⊥)
        → (env : List (ℕ × Object)) → IsMet definitions hyp env → ⊥ }
{}
