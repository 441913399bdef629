//! The world that every book begins with.

ghost use Rattle.std.specs.Prelude.{◌≡◌, ◌+◌, [], ◌∷◌, length, slice_get, Some, IfOk, OnOk, fold};
ghost use Rattle.gl_logic.specs.Names.{Extends, with_name};
ghost use Rattle.gl_logic.specs.TermOf.{term_of};
ghost use Rattle.gl_translate.specs.Answers.{IsTermWith};
ghost use Rattle.event_world.specs.PreludeTerms.{named};
ghost use Rattle.event_world.specs.PreludeTexts.{ground_texts};
ghost use Rattle.event_world.specs.PreludeForms.{forms_in, words_read};
ghost use Rattle.event_world.specs.OpeningNames.{with_ground_words};
ghost use Rattle.event_world.specs.PreludeRows.{IsNext, HoldsFirst, body_at, symbols_of};
ghost use Rattle.event_world.specs.Prelude.{IsPrelude};

use super::ground_reader::forms_of;
use super::ground_texts::definitions;
use admission::{AdmitFault, admit};
use gl_logic::{Def, FnId, Names, NoMemory, Term, TextId, Texts, Tree, TreeKind, World};
use gl_translate::{Owns, Scope, TermFault, term};
use std::alloc::Global;

/// The body of the next definition, which may call itself, with its formals.
fn body_of(
    alloc: Global,
    name: TextId,
    formals: Names,
    form: &Tree,
    world: &World,
    texts: &mut Texts,
) -> Result<(Names, Term), NoMemory>
    requires next { IsNext texts.old (length world.now.definitions) name.number formals form.now }
    requires so_far { HoldsFirst (length world.now.definitions) texts.old world.now }
    ensures formals { IfOk result (λ r. r.0 ≡ formals) }
    ensures body { IfOk result (λ r. term_of r.1 ≡ named formals (body_at (length world.now.definitions))) }
    ensures proper { IfOk result (λ r. IsTermWith world.now.definitions ((name.number, length formals) ∷ []) (term_of r.1)) }
    ensures extends { Extends texts.old texts.new }
    ensures names { OnOk result (texts.new ≡ with_name texts.old []) }
{
    let mut own = Owns::new(alloc);
    own.push(name, formals.len() as u32)?;
    let scope = Scope {
        vars: formals,
        every: false,
        own,
    };
    let meant = term(alloc, form, &scope, world, texts);
    // a text has one number alone, so the form means what it meant in the table of before
    texts.is_table();
    let body = match meant {
        Ok(body) => body,
        Err(fault) => match fault {
            TermFault::Memory => return Err(NoMemory),
            _ => unreachable!(),
        },
    };
    let Scope { vars, .. } = scope;
    Ok((vars, body))
}

/// Adds the next definition, as `admission` admits it.
fn define(
    alloc: Global,
    name: TextId,
    formals: Names,
    form: &Tree,
    world: &mut World,
    texts: &mut Texts,
) -> Result<(), NoMemory>
    requires next { IsNext texts.old (length world.old.definitions) name.number formals form.now }
    requires so_far { HoldsFirst (length world.old.definitions) texts.old world.old }
    ensures ok { OnOk result (HoldsFirst (length world.old.definitions + 1) texts.new world.new) }
    ensures extends { Extends texts.old texts.new }
    ensures names { OnOk result (texts.new ≡ with_name texts.old []) }
{
    // a text has one number alone, so the name is free and the formals differ
    texts.is_table();
    let (formals, body) = body_of(alloc, name, formals, form, world, texts)?;
    let f = FnId {
        number: world.count(),
    };
    match admit(f, &formals, &body, None) {
        Ok(measure) => {
            world.push(Def {
                name,
                formals,
                body,
                measure,
            })?;
            Ok(())
        }
        Err(fault) => match fault {
            AdmitFault::Memory => Err(NoMemory),
            AdmitFault::NotAdmitted(_) => unreachable!(),
        },
    }
}

/// The symbols of a list.
fn names_in(alloc: Global, list: &Tree) -> Result<Names, NoMemory>
    ensures { IfOk result (λ n. n ≡ symbols_of list.now) }
{
    let mut names = Names::new(alloc);
    let elements = list.elements();
    let mut left = elements.len();
    while left != 0 {
        left -= 1;
        if let TreeKind::Symbol(name) = elements[left].kind() {
            names.push(name)?;
        }
    }
    Ok(names)
}

/// Adds the next definition, by its text.
fn add(alloc: Global, text: &[u8], world: &mut World, texts: &mut Texts) -> Result<(), NoMemory>
    requires text { slice_get ground_texts (length world.old.definitions) ≡ Some text.now }
    requires so_far { HoldsFirst (length world.old.definitions) texts.old world.old }
    ensures ok { OnOk result (HoldsFirst (length world.old.definitions + 1) texts.new world.new) }
    ensures extends { Extends texts.old texts.new }
    ensures names { OnOk result (texts.new ≡ with_name (fold with_name texts.old (words_read (forms_in text.now))) []) }
{
    let parts = forms_of(alloc, text, texts)?;
    let [form, formals, name] = parts.elements() else {
        unreachable!()
    };
    let TreeKind::Symbol(name) = name.kind() else {
        unreachable!()
    };
    let formals = names_in(alloc, formals)?;
    define(alloc, name, formals, form, world, texts)
}

/// The world that every book begins with: the ground definitions in their order, each made from its own
/// form, with the measure under which it is admitted, and nothing else. The table gains the empty text
/// and the words of the definitions, in part where memory runs out.
///
/// Most are functions of ACL2 under their names, as its manual has them; `logcount-nat` is a helper of
/// `logcount`.
pub fn prelude(alloc: Global, texts: &mut Texts) -> Result<World, NoMemory>
    ensures world { IfOk result (λ w. IsPrelude texts.new w) }
    ensures extends { Extends texts.old texts.new }
    ensures names { OnOk result (texts.new ≡ with_ground_words texts.old) }
{
    // a text has one number alone, here and at the end
    texts.is_table();
    // the empty text, which each translation asks for, comes before the words
    let _empty = texts.id_of(b"")?;
    let mut world = World::new(alloc)?;
    for text in definitions() {
        add(alloc, text.as_bytes(), &mut world, texts)?;
    }
    // so each name is found under its definition
    texts.is_table();
    Ok(world)
}
