//! Forms to terms.

ghost use Rattle.std.specs.Prelude.{◌≡◌, ◌≤◌, ℕ, List, [], length, IfOk, OnOk};
ghost use Rattle.gl_logic.specs.Names.{Extends, with_name};
ghost use Rattle.gl_logic.specs.Numbered.{IsNumbered};
ghost use Rattle.gl_logic.specs.TermOf.{term_of};
ghost use Rattle.gl_translate.specs.Translation.{translation};
ghost use Rattle.gl_translate.specs.Answers.{Gives, IsTermWith, HasVariablesOf, IsNarrow, AreNarrow, HasNarrowConstants, GainsAtMost};

use super::context::Context;
use super::fault::TermFault;
use super::form::Form;
use super::scope::Scope;
use gl_logic::name_set::NameSet;
use gl_logic::{Term, Texts, Tree, World};
use std::alloc::Global;

/// The term that a form means in a world and a scope, or its first fault, from the outside in and from
/// left to right. The macros are those of ACL2's manual; a form inside 2,000 others is too deep.
///
/// The table gains the empty name, which the variable of a `case` has. The first part of an `or` stands
/// in its term twice, so a short form can mean a term of any size. Recurses at most 2,000 deep.
pub fn term(
    alloc: Global,
    form: &Tree,
    scope: &Scope,
    world: &World,
    texts: &mut Texts,
) -> Result<Term, TermFault>
    // The term, or the code of the first fault, in the table after the call.
    ensures meant { Gives term_of (translation texts.new world.now scope.now form.now) result }
    // And in each table that begins with it, where it has the texts of the form.
    ensures later { (names : List (List ℕ)) → Extends texts.new names → IsNumbered (length texts.new) form.now
        → Gives term_of (translation names world.now scope.now form.now) result }
    ensures gains { GainsAtMost [] texts.old texts.new }
    ensures ok { OnOk result (texts.new ≡ with_name texts.old []) }
    // A term of the world with the definitions being made, whose free variables are in scope.
    ensures proper { IfOk result (λ t. IsTermWith world.now.definitions scope.now.own (term_of t)) }
    ensures variables { IfOk result (λ t. HasVariablesOf texts.new world.now scope.now (term_of t)) }
    ensures narrow { IsNarrow form.now → AreNarrow world.now.constants
        → IfOk result (λ t. HasNarrowConstants (term_of t)) }
{
    let unnamed = texts.id_of(b"")?;
    let mut bound = NameSet::new(alloc);
    bound.insert_all(&scope.vars)?;
    match Context::new(alloc, world, scope, texts, unnamed) {
        Some(context) => context.term(Form::Book(form), 0, &mut bound),
        None => Err(TermFault::Memory),
    }
}
