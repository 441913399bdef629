//! Terms of an event's forms.

ghost use Rattle.std.specs.Prelude.{◌≡◌, [], true, false};
ghost use Rattle.gl_logic.specs.Names.{with_name};
ghost use Rattle.gl_logic.specs.TermOf.{term_of};
ghost use Rattle.gl_translate.specs.Translation.{translation};
ghost use Rattle.event_world.specs.Outcomes.{Gives, of_term};
ghost use Rattle.event_world.specs.PlainMeant.{closed_meant};
ghost use Rattle.event_world.specs.TheoremMeant.{claim_meant};

use super::fault::EventFault;
use gl_logic::{Names, Term, Texts, Tree, World};
use gl_translate::{Owns, Scope, TermFault, term};
use std::alloc::Global;

/// The term of a form in a scope. The table has the empty name already, and stays as it is.
pub(crate) fn term_in(
    alloc: Global,
    form: &Tree,
    scope: &Scope,
    world: &World,
    texts: &mut Texts,
) -> Result<Term, EventFault>
    requires { with_name texts.old [] ≡ texts.old }
    ensures meant { Gives term_of (of_term (translation texts.old world.now scope.now form.now)) result }
    ensures texts { texts.new ≡ texts.old }
{
    match term(alloc, form, scope, world, texts) {
        Ok(found) => Ok(found),
        Err(TermFault::Memory) => Err(EventFault::Memory),
        Err(fault) => Err(EventFault::Term(fault)),
    }
}

/// A term without free variables.
pub(crate) fn closed_term(
    alloc: Global,
    form: &Tree,
    world: &World,
    texts: &mut Texts,
) -> Result<Term, EventFault>
    requires { with_name texts.old [] ≡ texts.old }
    ensures meant { Gives term_of (closed_meant texts.old world.now form.now) result }
    ensures texts { texts.new ≡ texts.old }
{
    let scope = Scope {
        vars: Names::new(alloc),
        every: false,
        own: Owns::new(alloc),
    };
    let found = term_in(alloc, form, &scope, world, texts);
    drop(scope);
    found
}

/// A term in which every legal variable is in scope.
pub(crate) fn claim_term(
    alloc: Global,
    form: &Tree,
    world: &World,
    texts: &mut Texts,
) -> Result<Term, EventFault>
    requires { with_name texts.old [] ≡ texts.old }
    ensures meant { Gives term_of (claim_meant texts.old world.now form.now) result }
    ensures texts { texts.new ≡ texts.old }
{
    let scope = Scope {
        vars: Names::new(alloc),
        every: true,
        own: Owns::new(alloc),
    };
    let found = term_in(alloc, form, &scope, world, texts);
    drop(scope);
    found
}
