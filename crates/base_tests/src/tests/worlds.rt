//! Each call that allocates, with ample memory.

ghost use Rattle.std.specs.Prelude.{◌≡◌, [], ◌∷◌};
ghost use Rattle.gl_logic.specs.Exp.{Last, More};
ghost use Rattle.gl_logic.specs.Exp as exp;
ghost use Rattle.gl_logic.specs.declared.prim.Primitive.TheVariants as prim;
ghost use Rattle.gl_logic.specs.TermOf.{term_of};
ghost use Rattle.gl_logic.specs.DefinitionOf.{definition_of};
ghost use Rattle.gl_logic.specs.WorkedDefinitions.{atom_definition};

use super::check;
use gl_logic::{
    Assignment, Def, Defs, Measure, Measures, Names, Natural, Prim, Term, Terms, TextId, Texts,
    Tree, World,
};
use std::alloc::Global;
use std::process::Abort;

/// The pair of two trees.
fn pair(rt: &impl Abort, alloc: Global, first: Tree, rest: Tree) -> Tree {
    Tree::pair(alloc, first, rest).expect(rt, "no memory")
}

/// A copy.
fn copy(rt: &impl Abort, alloc: Global, tree: &Tree) -> Tree {
    tree.copy(alloc).expect(rt, "no memory")
}

#[test]
fn trees_are_made_and_copied(rt: HostRuntime) {
    let alloc = rt.alloc();
    let nil = Tree::symbol(TextId { number: 0 });
    let one = pair(&rt, alloc, Tree::int(1), nil);
    let two = pair(&rt, alloc, Tree::character(65), copy(&rt, alloc, &one));
    let again = copy(&rt, alloc, &two);
    assert!(rt; two.same(&again) && !two.same(&one));
    assert!(rt; two.elements().len() == 2);
}

#[test]
fn texts_are_numbered(rt: HostRuntime) {
    let mut texts = Texts::new(rt.alloc()).expect(&rt, "no memory");
    for (name, number) in [("NIL", 0), ("CAR", 4), (",", 3), ("CAR", 4)] {
        let id = texts.id_of(name.as_bytes()).expect(&rt, "no memory");
        check(&rt, id.number == number, name);
    }
}

#[test]
fn assignments_begin_false(rt: HostRuntime) {
    let mut values = Assignment::new(rt.alloc(), 3).expect(&rt, "no memory");
    values.set(2, true);
    assert!(rt; values.get(2) && !values.get(1));
}

#[test]
fn lists_grow(rt: HostRuntime) {
    let alloc = rt.alloc();
    let mut names = Names::new(alloc);
    names.push(TextId { number: 7 }).expect(&rt, "no memory");
    let copy = names.copy(alloc).expect(&rt, "no memory");
    assert!(rt; copy.len() == 1 && copy.contains(TextId { number: 7 }));
    let mut terms = Terms::new(alloc);
    let seven = Term::Var(TextId { number: 7 });
    let seven = seven.copy(alloc).expect(&rt, "no memory");
    terms.push(seven).expect(&rt, "no memory");
    assert!(rt; terms.len() == 1);
}

/// The application of a primitive to one term.
fn applied(rt: &impl Abort, alloc: Global, prim: Prim, term: Term) -> Term
    ensures { term_of result ≡ exp.Prim prim (More (term_of term) Last) }
{
    let mut args = Vec::new(alloc);
    args.push(term).expect(rt, "no memory");
    Term::Prim(prim, args)
}

// (not (consp x)), where x has number 5
fn not_a_cons(rt: &impl Abort, alloc: Global) -> Term
    ensures { term_of result ≡ exp.Prim prim.Not (More (exp.Prim prim.Consp (More (exp.Var 5) Last)) Last) }
{
    let x = Term::Var(TextId { number: 5 });
    let inner = applied(rt, alloc, Prim::Consp, x);
    applied(rt, alloc, Prim::Not, inner)
}

// the first ground definition, under the name of number 9
fn atom(rt: &impl Abort, alloc: Global) -> Def
    ensures { definition_of result ≡ atom_definition }
{
    let mut formals = Names::new(alloc);
    formals.push(TextId { number: 5 }).expect(rt, "no memory");
    Def {
        name: TextId { number: 9 },
        formals,
        body: not_a_cons(rt, alloc),
        measure: None,
    }
}

/// Adds the first ground definition to a world without definitions.
fn take_a_definition(rt: &impl Abort, world: &mut World, def: Def)
    requires none { world.old.definitions ≡ [] }
    requires atom { definition_of def ≡ atom_definition }
{
    let f = world.push(def).expect(rt, "no memory");
    assert!(rt; world.count() == 1 && world.find(TextId { number: 9 }) == Some(f));
    assert!(rt; world.def(f).name.number == 9);
}

#[test]
fn a_definition_is_added(rt: HostRuntime) {
    let mut world = World::new(rt.alloc()).expect(&rt, "no memory");
    take_a_definition(&rt, &mut world, atom(&rt, rt.alloc()));
}

// the first ground definition alone
fn only_atom(rt: &impl Abort, alloc: Global) -> Defs
    ensures { result ≡ atom_definition ∷ [] }
{
    let mut defs = Defs::new(alloc);
    defs.push(atom(rt, alloc)).expect(rt, "no memory");
    defs
}

/// Adds the first ground definition, as a clique, to a world without definitions.
fn take_a_clique(rt: &impl Abort, world: &mut World, defs: Defs)
    requires none { world.old.definitions ≡ [] }
    requires atom { defs ≡ atom_definition ∷ [] }
{
    let f = world.push_clique(defs).expect(rt, "no memory");
    assert!(rt; f.number == 0 && world.count() == 1);
    assert!(rt; world.find(TextId { number: 9 }) == Some(f));
}

#[test]
fn a_clique_is_added(rt: HostRuntime) {
    let defs = only_atom(&rt, rt.alloc());
    assert!(rt; defs.len() == 1 && defs.at(0).name.number == 9);
    let mut world = World::new(rt.alloc()).expect(&rt, "no memory");
    take_a_clique(&rt, &mut world, defs);
}

#[test]
fn measures_are_listed(rt: HostRuntime) {
    let mut measures = Measures::new(rt.alloc());
    let measure = Measure::Lex(
        Natural::Nat(TextId { number: 5 }),
        Natural::Len(TextId { number: 6 }),
    );
    measures.push(None).expect(&rt, "no memory");
    measures.push(Some(measure)).expect(&rt, "no memory");
    assert!(rt; measures.len() == 2);
    assert!(rt; *measures.at(0) == None && *measures.at(1) == Some(measure));
}

#[test]
fn worlds_grow(rt: HostRuntime) {
    let mut world = World::new(rt.alloc()).expect(&rt, "no memory");
    let name = TextId { number: 9 };
    world
        .set_constant(name, Tree::int(5))
        .expect(&rt, "no memory");
    world.note(name, Tree::int(6)).expect(&rt, "no memory");
    assert!(rt; world.constant_count() == 1 && world.constant(name).is_some());
    assert!(rt; world.noted(name).is_some() && world.noted(TextId { number: 8 }).is_none());
}
