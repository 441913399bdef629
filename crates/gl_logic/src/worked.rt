//! Worked values: primitives and terms with their values and counts, which were computed outside this
//! project and are computed here from the definitions.

ghost use Rattle.gl_logic.specs.WorkedPrims.{worked_prims};
ghost use Rattle.gl_logic.specs.WorkedPrims as prims;
ghost use Rattle.gl_logic.specs.WorkedCounts.{worked_counts};
ghost use Rattle.gl_logic.specs.WorkedCounts as counts;

/// Each worked primitive has its value.
pub fn prims_are_right()
    ensures { prims.AreRight worked_prims }
{}

/// Each worked term has its value, its least depth, its cost with and without memoized functions, and
/// its count of distinct cells.
pub fn counts_are_right()
    ensures { counts.AreRight worked_counts }
{}
