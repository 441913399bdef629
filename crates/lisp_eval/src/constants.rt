//! The constants of a world.

ghost use Rattle.std.specs.Prelude.{◌≡◌, ◌<◌, ◌↔◌, [], ◌++◌, All, Contains, map, length, IfOk, IsErr, OnOk};
ghost use Rattle.std.specs.List.{flat_map};
ghost use Rattle.gl_logic.specs.CellCounts.{constants_of, constants_of_all, world_constants};
ghost use Rattle.gl_logic.specs.Parts.{cells_in};
ghost use Rattle.gl_logic.specs.TermOf.{term_of, terms_of};
ghost use Rattle.lisp_eval.specs.MachineCalls.{different_cells};
ghost use Rattle.lisp_eval.specs.Machines.{ArePlaced};

use gl_logic::{FnId, NoMemory, Term, Tree, World};
use hons_arena::{Full, HonsArena};
use std::alloc::Global;

/// The constants of a world and of its definitions' bodies, in their order.
pub fn constants_in<'a>(alloc: Global, world: &'a World) -> Result<Vec<&'a Tree>, NoMemory>
    ensures { IfOk result (λ v. map (λ x. x.now) v.items ≡ world_constants world.now) }
{
    let mut all = Vec::new(alloc);
    for i in 0..world.constant_count() {
        all.push(world.constant_at(i))?;
    }
    add_of_bodies(world, &mut all)?;
    Ok(all)
}

/// Adds the constants of the definitions' bodies to a list.
fn add_of_bodies<'a>(world: &'a World, all: &mut Vec<&'a Tree>) -> Result<(), NoMemory>
    ensures { OnOk result (map (λ x. x.now) all.new.items ≡ map (λ x. x.now) all.old.items ++ flat_map (λ d. constants_of d.body) world.now.definitions) }
{
    for number in 0..world.count() {
        add(&world.def(FnId { number }).body, all)?;
    }
    Ok(())
}

/// Adds the constants of a term to a list.
#[cycle(add)]
fn add<'a>(term: &'a Term, all: &mut Vec<&'a Tree>) -> Result<(), NoMemory>
    ensures { OnOk result (map (λ x. x.now) all.new.items ≡ map (λ x. x.now) all.old.items ++ constants_of (term_of term.now)) }
{
    match term {
        Term::Var(_) => Ok(()),
        Term::Const(tree) => {
            all.push(tree)?;
            Ok(())
        }
        Term::If(test, then, otherwise) => {
            add(test, all)?;
            add(then, all)?;
            add(otherwise, all)
        }
        Term::Prim(_, terms) => add_all(terms.as_slice(), all),
        Term::Call(_, terms) => add_all(terms.as_slice(), all),
        Term::Let(_, terms, body) => {
            add_all(terms.as_slice(), all)?;
            add(body, all)
        }
    }
}

/// Adds the constants of terms to a list, one term after the other.
#[cycle(add)]
fn add_all<'a>(terms: &'a [Term], all: &mut Vec<&'a Tree>) -> Result<(), NoMemory>
    ensures { OnOk result (map (λ x. x.now) all.new.items ≡ map (λ x. x.now) all.old.items ++ constants_of_all (terms_of terms.now)) }
{
    for term in terms {
        add(term, all)?;
    }
    Ok(())
}

/// Places objects in an empty arena. Full exactly where their different cells are more than the limit.
pub fn place_all(arena: &mut HonsArena, trees: &[&Tree]) -> Result<(), Full>
    requires { arena.old.objects ≡ [] }
    ensures limit { arena.new.limit ≡ arena.old.limit }
    ensures placed { OnOk result (ArePlaced arena.new.objects (map (λ x. x.now) trees.now)) }
    ensures cells { OnOk result (All (Contains (flat_map cells_in (map (λ x. x.now) trees.now))) arena.new.objects) }
    ensures full { IsErr result ↔ (arena.old.limit < length (different_cells (map (λ x. x.now) trees.now))) }
{
    for tree in trees {
        arena.place(tree)?;
    }
    Ok(())
}
