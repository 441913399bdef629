//! Terms of the logic.

ghost use Rattle.std.specs.Prelude.{◌≡◌, map, length, IfOk};
ghost use Rattle.std.specs.Io.Iter.{u64_saturate};
ghost use Rattle.std.specs.List.{flat_map};
ghost use Rattle.gl_logic.specs.CellCounts.{constants_of, constants_of_all};
ghost use Rattle.gl_logic.specs.Parts.{cells_in};
ghost use Rattle.gl_logic.specs.TermOf.{term_of, terms_of};

use super::ids::{FnId, NoMemory, TextId};
use super::names::Names;
use super::prim::Primitive;
use super::tree::Tree;
use std::alloc::Global;

/// A term of the logic. A book's terms nest at most 2,000 deep, and what recurses over a term goes no
/// deeper.
#[derive(Drop)]
pub enum Term {
    /// A variable.
    Var(TextId),
    /// A constant stands for itself.
    Const(Tree),
    /// The test, the part where it is not NIL, and the part where it is NIL.
    If(Box<Term>, Box<Term>, Box<Term>),
    /// A primitive and its arguments.
    Prim(Primitive, Vec<Term>),
    /// A definition of the world and its arguments.
    Call(FnId, Vec<Term>),
    /// The names, the terms that they are bound to, and the body.
    Let(Names, Vec<Term>, Box<Term>),
}

impl Term {
    /// An equal term with parts of its own.
    #[cycle(copy)]
    pub fn copy(&self, alloc: Global) -> Result<Term, NoMemory>
        ensures { IfOk result (λ t. term_of t ≡ term_of self.now) }
    {
        match self {
            Term::Var(name) => Ok(Term::Var(*name)),
            Term::Const(tree) => Ok(Term::Const(tree.copy(alloc)?)),
            Term::If(test, then, otherwise) => {
                let test = Box::new(alloc, test.copy(alloc)?)?;
                let then = Box::new(alloc, then.copy(alloc)?)?;
                let otherwise = Box::new(alloc, otherwise.copy(alloc)?)?;
                Ok(Term::If(test, then, otherwise))
            }
            Term::Prim(prim, terms) => Ok(Term::Prim(*prim, copies(alloc, terms.as_slice())?)),
            Term::Call(f, terms) => Ok(Term::Call(*f, copies(alloc, terms.as_slice())?)),
            Term::Let(names, terms, body) => {
                let names = names.copy(alloc)?;
                let terms = copies(alloc, terms.as_slice())?;
                let body = Box::new(alloc, body.copy(alloc)?)?;
                Ok(Term::Let(names, terms, body))
            }
        }
    }

    /// How many integers, characters and conses are parts of the constants in the term, each as often as it occurs;
    /// 2^64 - 1 where they are more.
    #[cycle(cells)]
    pub fn constant_cell_count(&self) -> u64
        ensures { result ≡ u64_saturate (length (flat_map cells_in (constants_of (term_of self.now)))) }
    {
        match self {
            Term::Var(_) => 0,
            Term::Const(tree) => tree.cell_count(),
            Term::If(test, then, otherwise) => test
                .constant_cell_count()
                .saturating_add(then.constant_cell_count())
                .saturating_add(otherwise.constant_cell_count()),
            Term::Prim(_, terms) => constant_cells_in(terms.as_slice()),
            Term::Call(_, terms) => constant_cells_in(terms.as_slice()),
            Term::Let(_, terms, body) => {
                constant_cells_in(terms.as_slice()).saturating_add(body.constant_cell_count())
            }
        }
    }
}

#[cycle(copy)]
fn copies(alloc: Global, terms: &[Term]) -> Result<Vec<Term>, NoMemory>
    ensures { IfOk result (λ v. map term_of v.items ≡ map term_of terms.now) }
{
    let mut all = Vec::new(alloc);
    for term in terms {
        all.push(term.copy(alloc)?)?;
    }
    Ok(all)
}

#[cycle(cells)]
fn constant_cells_in(terms: &[Term]) -> u64
    ensures { result ≡ u64_saturate (length (flat_map cells_in (constants_of_all (terms_of terms.now)))) }
{
    let mut count: u64 = 0;
    for term in terms {
        count = count.saturating_add(term.constant_cell_count());
    }
    count
}
