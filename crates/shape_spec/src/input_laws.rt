//! Laws of inputs and of the numbers of assignments. Each is the contract of a function that does nothing.

ghost use Rattle.std.specs.Prelude.{◌≡◌, ℕ, ◌^◌, ◌<◌, Bool, List};
ghost use Rattle.shape_spec.specs.ShapeSeen.{ShapeSeen};
ghost use Rattle.shape_spec.specs.Indices.{width_of};
ghost use Rattle.shape_spec.specs.InputMeant.{input_meant, number_of, assignment_numbered};

/// An input depends on the truth values below the width alone.
#[tactic(auto, using(crate::proofs::Members::same_input))]
pub fn width_decides()
    ensures { (b : List (ℕ × ShapeSeen)) (a c : ℕ → Bool) → ((k : ℕ) → k < width_of b → a k ≡ c k) → input_meant b a ≡ input_meant b c }
{}

/// The assignments of so many variables are those of the numbers below a power of two, one each.
#[tactic(auto, using(crate::proofs::Digits::number_below, crate::proofs::Digits::number_bits, crate::proofs::Digits::number_back))]
pub fn numbers_of_assignments()
    ensures below { (w : ℕ) (a : ℕ → Bool) → number_of w a < 2 ^ w }
    ensures bits { (w : ℕ) (a : ℕ → Bool) (k : ℕ) → k < w → assignment_numbered (number_of w a) k ≡ a k }
    ensures number { (w n : ℕ) → n < 2 ^ w → number_of w (assignment_numbered n) ≡ n }
{}

/// Each input is that of a number: of the number of its assignment, which is below 2 to the width.
#[tactic(auto, using(crate::proofs::Digits::input_by_number, crate::proofs::Digits::number_below))]
pub fn inputs_are_numbered()
    ensures below { (b : List (ℕ × ShapeSeen)) (a : ℕ → Bool) → number_of (width_of b) a < 2 ^ width_of b }
    ensures input { (b : List (ℕ × ShapeSeen)) (a : ℕ → Bool) → input_meant b (assignment_numbered (number_of (width_of b) a)) ≡ input_meant b a }
{}
