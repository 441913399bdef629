//! What a symbolic decision of a theorem answers.

ghost use Rattle.std.specs.Prelude.{◌≡◌};
ghost use Rattle.gl_symbolic.specs.Decisions.{IsGivenUpOn, IsNoWide, IsUndecided, given_up_by, stopped_by};

use gl_interp::GlFault;
use gl_logic::Assignment;
use shape_spec::Part;
use sym_prims::SymFault;

/// What a symbolic decision of a theorem answers. An assignment has a truth value for each of the theorem's indices, in
/// their order.
#[derive(Drop)]
pub enum Decision {
    /// Each input that meets the hypothesis meets the conclusion, and some input meets the hypothesis.
    Proved,
    /// No input meets the hypothesis.
    Vacuous,
    /// The assignment's input meets the hypothesis and makes the conclusion NIL.
    Refuted(Assignment),
    /// With as many definitions opened inside one another as the theorem allows the part has no value on the assignment's
    /// input.
    Clock(Part, Assignment),
    /// There some value on the way is an integer outside -2^127 to 2^127 - 1.
    Width(Part, Assignment),
    /// There more subterms would be visited than the limit allows.
    Steps(Part, Assignment),
    /// There the evaluation speaks of more different cells than the limit allows.
    Cells(Part, Assignment),
    /// The table of symbolic objects or the bit store holds as many nodes as its limit allows.
    Full,
    /// The bit store gave up its last decision.
    Spent,
    /// Memory was refused.
    Memory,
}

/// The decision that a fault of a part is.
pub(crate) fn stopped(part: Part, fault: GlFault) -> Decision
    ensures by { result ≡ stopped_by part fault }
    ensures undecided { IsUndecided result }
{
    match fault {
        GlFault::Clock(a) => Decision::Clock(part, a),
        GlFault::Wide(a) => Decision::Width(part, a),
        GlFault::Steps(a) => Decision::Steps(part, a),
        GlFault::Cells(a) => Decision::Cells(part, a),
        GlFault::Full => Decision::Full,
        GlFault::Spent => Decision::Spent,
        GlFault::Memory => Decision::Memory,
    }
}

/// The decision that a fault of the store's decision is.
pub(crate) fn given_up(fault: SymFault) -> Decision
    requires { IsNoWide fault }
    ensures by { result ≡ given_up_by fault }
    ensures stops { IsGivenUpOn result }
{
    match fault {
        SymFault::Full => Decision::Full,
        SymFault::Spent => Decision::Spent,
        SymFault::Wide(_) => unreachable!(),
        SymFault::Memory => Decision::Memory,
    }
}
