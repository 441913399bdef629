//! Laws of the calls that an evaluation makes. Each is the contract of a function that does nothing.

ghost use Rattle.std.specs.Prelude.{List, ℕ};
ghost use Rattle.gl_logic.specs.Definition.{Definition};
ghost use Rattle.gl_logic.specs.WorldSeen.{WorldSeen};
ghost use Rattle.gl_logic.specs.PartsOfWalks.{HasValueAgain, SeesLess, MakesLess, CostsLess, CostsLessMemoized, IsWideInside, NeedsLess};

/// A call that is made in the evaluation of a term has, by itself on constants, a value at the same
/// depth, sees no more than the whole, makes no other calls, and costs no more, whatever functions are
/// memoized. Where it is wide, so is the whole; and it needs at most the cells of the whole.
pub fn calls_are_parts()
    ensures value { (definitions : List Definition) → HasValueAgain definitions }
    ensures seen { (definitions : List Definition) → SeesLess definitions }
    ensures made { (definitions : List Definition) → MakesLess definitions }
    ensures cost { (definitions : List Definition) → CostsLess definitions }
    ensures memoized { (definitions : List Definition) (functions : List ℕ) → CostsLessMemoized definitions functions }
    ensures wide { (definitions : List Definition) → IsWideInside definitions }
    ensures cells { (w : WorldSeen) → NeedsLess w }
{}
