//! Laws of texts and judgements. Each is the contract of a function that does nothing.

ghost use Rattle.std.specs.Prelude.{◌≡◌, ℕ, List, IfOk};
ghost use Rattle.cnf_rup.specs.Books.{BookSeen};
ghost use Rattle.lrat_tool.specs.Formulas.{formula_meant};
ghost use Rattle.lrat_tool.specs.Judgements.{judgement};
ghost use Rattle.lrat_tool.specs.Models.{HasNoModel};
ghost use Rattle.cnf_rup.specs.Refutations.{IsRefutation};
ghost use Rattle.lrat_tool.specs.Written.{cnf_lines, log_lines};
ghost use Rattle.lrat_tool.specs.declared.judgement.Judgement.TheVariants as judgement_as;

/// Where a log is verified, no assignment satisfies the formula.
pub fn verified_formulas_have_no_model()
    ensures { (cnf log : List ℕ) → judgement cnf log ≡ judgement_as.Verified → IfOk (formula_meant cnf) HasNoModel }
{}

/// The texts that are written of a refutation are verified.
pub fn written_texts_are_verified()
    ensures { (b : BookSeen) → IsRefutation b → judgement (cnf_lines b) (log_lines b) ≡ judgement_as.Verified }
{}
