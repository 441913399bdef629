//! Free variables of terms.

ghost use Rattle.std.specs.Prelude.{◌≡◌, eqb};
ghost use Rattle.std.specs.List.{list_any};
ghost use Rattle.gl_logic.specs.TermOf.{term_of, terms_of};
ghost use Rattle.gl_logic.specs.FreeVariables.{is_free_in, is_free_in_some};

use gl_logic::{Names, Term, TextId};

/// Whether a variable is free in a term: it stands there outside every `let` that binds it.
#[cycle(free)]
pub fn is_free(term: &Term, variable: TextId) -> bool
    ensures { result ≡ is_free_in (term_of term.now) variable.number }
{
    match term {
        Term::Var(name) => name.number == variable.number,
        Term::Const(_) => false,
        Term::If(test, then, otherwise) => {
            is_free(test, variable) || is_free(then, variable) || is_free(otherwise, variable)
        }
        Term::Prim(_, terms) => is_free_in_any(terms.as_slice(), variable),
        Term::Call(_, terms) => is_free_in_any(terms.as_slice(), variable),
        Term::Let(names, terms, body) => {
            is_free_in_any(terms.as_slice(), variable)
                || (!has_name(names, variable) && is_free(body, variable))
        }
    }
}

#[cycle(free)]
fn is_free_in_any(terms: &[Term], variable: TextId) -> bool
    ensures { result ≡ is_free_in_some (terms_of terms.now) variable.number }
{
    for term in terms {
        if is_free(term, variable) {
            return true;
        }
    }
    false
}

fn has_name(names: &Names, variable: TextId) -> bool
    ensures { result ≡ list_any (λ u. eqb u variable.number) names.now }
{
    for i in 0..names.len() {
        if names.at(i).number == variable.number {
            return true;
        }
    }
    false
}
