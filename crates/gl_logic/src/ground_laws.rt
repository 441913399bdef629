//! Laws of the ground definitions. Each is the contract of a function that does nothing.

ghost use Rattle.std.specs.Prelude.{◌≡◌, ℕ, List, length};
ghost use Rattle.gl_logic.specs.Definition.{Definition};
ghost use Rattle.gl_logic.specs.Ground.{ground};
ghost use Rattle.gl_logic.specs.IsGround.{AreGround};
ghost use Rattle.gl_logic.specs.GroundCalls.{IsGroundIn, OpensAsGround, WalksAsGround, IsAsGroundOnConstants};
ghost use Rattle.gl_logic.specs.WorldSeen.{IsWorld};

/// A call of a ground definition is the same in each world that holds it as where there are the ground
/// definitions alone: its value, the values that are seen, and the calls that are made.
pub fn ground_calls()
    ensures worlds { (definitions : List Definition) (cliques : List ℕ) → IsWorld definitions cliques → AreGround definitions }
    ensures count { length ground ≡ 43 }
    ensures opened { (definitions : List Definition) (f : ℕ) → IsGroundIn definitions f → OpensAsGround definitions f }
    ensures body { (definitions : List Definition) (f : ℕ) → IsGroundIn definitions f → WalksAsGround definitions f }
    ensures constants { (definitions : List Definition) (f : ℕ) → IsGroundIn definitions f → IsAsGroundOnConstants definitions f }
{}
