//! Whether the free variables of a term are bound.

ghost use Rattle.std.specs.Prelude.{◌≡◌, ℕ, ◌&&◌, [], eqb, IfOk, OnOk};
ghost use Rattle.std.specs.List.{list_any};
ghost use Rattle.gl_logic.specs.TermOf.{term_of, terms_of};
ghost use Rattle.gl_translate.specs.Meaning.{also_bound};
ghost use Rattle.gl_translate.specs.Translation.{are_in};
ghost use Rattle.shape_spec.specs.Indices.{variables_of};
ghost use Rattle.event_world.specs.TheoremMeant.{has_only as only_in, have_only as only_in_all, binds as binds_meant};

use gl_logic::name_set::NameSet;
use gl_logic::{Names, NoMemory, Term};
use shape_spec::Bindings;
use std::alloc::Global;

/// Whether each free variable of a term is in a set. The set is afterwards as it was.
#[cycle(only)]
fn has_only(term: &Term, bound: &mut NameSet) -> Result<bool, NoMemory>
    ensures told { IfOk result (λ b. b ≡ only_in (are_in bound.old) (term_of term.now)) }
    ensures same { OnOk result (bound.new ≡ bound.old) }
{
    match term {
        Term::Var(name) => Ok(bound.contains(*name)),
        Term::Const(_) => Ok(true),
        Term::If(test, then, otherwise) => {
            if !has_only(test, bound)? {
                return Ok(false);
            }
            if !has_only(then, bound)? {
                return Ok(false);
            }
            has_only(otherwise, bound)
        }
        Term::Prim(_, terms) => have_only(terms.as_slice(), bound),
        Term::Call(_, terms) => have_only(terms.as_slice(), bound),
        Term::Let(names, terms, body) => {
            if !have_only(terms.as_slice(), bound)? {
                return Ok(false);
            }
            has_only_below(names, body, bound)
        }
    }
}

#[cycle(only)]
fn have_only(terms: &[Term], bound: &mut NameSet) -> Result<bool, NoMemory>
    ensures told { IfOk result (λ b. b ≡ only_in_all (are_in bound.old) (terms_of terms.now)) }
    ensures same { OnOk result (bound.new ≡ bound.old) }
{
    for term in terms {
        if !has_only(term, bound)? {
            return Ok(false);
        }
    }
    Ok(true)
}

/// The same of a body in which these names are bound too.
#[cycle(only)]
fn has_only_below(names: &Names, body: &Term, bound: &mut NameSet) -> Result<bool, NoMemory>
    ensures told { IfOk result (λ b. b ≡ only_in (also_bound names.now (are_in bound.old)) (term_of body.now)) }
    ensures same { OnOk result (bound.new ≡ bound.old) }
{
    let count = bound.len();
    bound.insert_all(names)?;
    let told = has_only(body, bound)?;
    bound.truncate(count);
    Ok(told)
}

/// The variables of bindings.
fn variables(alloc: Global, bindings: &Bindings) -> Result<NameSet, NoMemory>
    ensures { IfOk result (λ ns. (v : ℕ) → list_any (eqb v) ns ≡ list_any (eqb v) (variables_of bindings.now)) }
{
    let mut names = NameSet::new(alloc);
    match note_variables(bindings, &mut names) {
        Ok(()) => Ok(names),
        Err(fault) => {
            drop(names);
            Err(fault)
        }
    }
}

/// Puts the variables of bindings into a set that has none.
fn note_variables(bindings: &Bindings, names: &mut NameSet) -> Result<(), NoMemory>
    requires { names.old ≡ [] }
    ensures { OnOk result ((v : ℕ) → list_any (eqb v) names.new ≡ list_any (eqb v) (variables_of bindings.now)) }
{
    for i in 0..bindings.len() {
        names.insert(bindings.variable(i))?;
    }
    Ok(())
}

/// Whether bindings bind each free variable of a hypothesis and of a conclusion.
pub(crate) fn binds(
    alloc: Global,
    bindings: &Bindings,
    hyp: &Term,
    concl: &Term,
) -> Result<bool, NoMemory>
    ensures { IfOk result (λ b. b ≡ binds_meant bindings.now (term_of hyp.now) (term_of concl.now)) }
{
    let mut bound = variables(alloc, bindings)?;
    have_both_only(hyp, concl, &mut bound)
}

/// Whether each free variable of two terms is in a set. The set is afterwards as it was.
fn have_both_only(first: &Term, second: &Term, bound: &mut NameSet) -> Result<bool, NoMemory>
    ensures { IfOk result (λ b. b ≡ (only_in (are_in bound.old) (term_of first.now) && only_in (are_in bound.old) (term_of second.now))) }
{
    if !has_only(first, bound)? {
        return Ok(false);
    }
    has_only(second, bound)
}
