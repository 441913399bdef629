//! Laws for the layers above. Each is the contract of a function that does nothing.

ghost use Rattle.std.specs.Prelude.{List};
ghost use Rattle.gl_logic.specs.Definition.{Definition};
ghost use Rattle.hons_arena.specs.declared.id.Id.{Id};
ghost use Rattle.fast_alists.specs.Tables.{StayAgreed};
ghost use Rattle.fast_alists.specs.Values.{HoldsGround, AconsIsRight, GetIsRight, ForkIsRight};

/// Tables that agree with an arena still do where cells are added to it.
pub fn tables_stay()
    ensures { (tables : List (Id × List (Id × Id))) → StayAgreed tables }
{}

/// What `acons`, `get` and `fork` answer are the values of `hons-acons`, `hons-assoc-equal` and `fast-alist-fork`, in each
/// world that begins with the ground definitions.
pub fn answers_are_values()
    ensures acons { (definitions : List Definition) → HoldsGround definitions → AconsIsRight definitions }
    ensures get { (definitions : List Definition) → HoldsGround definitions → GetIsRight definitions }
    ensures fork { (definitions : List Definition) → HoldsGround definitions → ForkIsRight definitions }
{}
