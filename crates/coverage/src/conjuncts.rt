//! The conjuncts of a term.

ghost use Rattle.std.specs.Prelude.{◌≡◌, map, List, [], ◌∷◌, ◌++◌, IfOk, OnOk};
ghost use Rattle.gl_logic.specs.TermOf.{term_of};
ghost use Rattle.coverage.specs.Conjuncts.{is_nil_term, conjuncts};

use gl_logic::{NoMemory, Term};

/// Whether a term is the constant NIL.
fn is_nil(term: &Term) -> bool
    ensures { result ≡ is_nil_term (term_of term.now) }
{
    match term {
        Term::Const(tree) => tree.is_nil(),
        _ => false,
    }
}

/// Puts the conjuncts of a term last: those of both parts of `(if a b nil)`, and any other term itself.
pub fn add_conjuncts<'a>(term: &'a Term, all: &mut Vec<&'a Term>) -> Result<(), NoMemory>
    ensures { OnOk result (map (λ t. term_of t.now) all.new.items ≡ map (λ t. term_of t.now) all.old.items ++ conjuncts (term_of term.now)) }
{
    match term {
        Term::If(test, then, otherwise) => {
            if is_nil(otherwise) {
                add_conjuncts(test, all)?;
                add_conjuncts(then, all)
            } else {
                add_last(term, all)
            }
        }
        Term::Var(_) => add_last(term, all),
        Term::Const(_) => add_last(term, all),
        Term::Prim(_, _) => add_last(term, all),
        Term::Call(_, _) => add_last(term, all),
        Term::Let(_, _, _) => add_last(term, all),
    }
}

fn add_last<'a>(term: &'a Term, all: &mut Vec<&'a Term>) -> Result<(), NoMemory>
    ensures { OnOk result (map (λ t. term_of t.now) all.new.items ≡ map (λ t. term_of t.now) all.old.items ++ term_of term.now ∷ []) }
{
    all.push(term)?;
    Ok(())
}
