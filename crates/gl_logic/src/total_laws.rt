//! The laws of total worlds: every term has a value. Each is a clause of a function that does nothing.

ghost use Rattle.std.specs.Prelude.{ℕ, List, ◌++◌};
ghost use Rattle.gl_logic.specs.Definition.{Definition};
ghost use Rattle.gl_logic.specs.IsGround.{AreGround};
ghost use Rattle.gl_logic.specs.IsTotal.{IsTotal};
ghost use Rattle.gl_logic.specs.WorldSeen.{IsClique, IsWorld};

/// Where every term of a list of definitions has a value on every environment, and the first of them are the
/// ground definitions as far as there are any, the same is true with an admissible clique more; and so it is
/// true of every world.
pub fn worlds_are_total()
    ensures clique { (definitions members : List Definition) → AreGround definitions → IsTotal definitions → IsClique definitions members → IsTotal (definitions ++ members) }
    ensures world { (definitions : List Definition) (cliques : List ℕ) → IsWorld definitions cliques → IsTotal definitions }
{}
