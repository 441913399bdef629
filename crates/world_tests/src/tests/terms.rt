//! Forms and their terms, with ample memory.

mod objects;
mod own_list;
mod rows;

use super::reader::form_of;
use gl_logic::{Names, NoMemory, TextId, Texts, Tree, World};
use gl_translate::{Owns, Scope, TermFault, term};
pub(super) use objects::object_of;
use std::alloc::Global;
use std::process::Abort;

/// Where a row's form stands.
#[derive(Clone, Copy, PartialEq, Eq)]
enum Kind {
    /// X, Y and Z are variables, G and H definitions of two and no formals.
    Full,
    /// The same variables and no definitions.
    Empty,
    /// Every legal variable is in scope.
    Theorem,
}

/// Puts a definition last, where its name is new.
fn put(own: &mut Owns, name: TextId, formals: u32) -> Result<(), NoMemory> {
    match own.place(name) {
        None => own.push(name, formals),
        Some(_) => Ok(()),
    }
}

/// Puts G, H, and `binary-append` and `member-equal` under their numbers, among others that no form names.
fn put_definitions(own: &mut Owns, texts: &mut Texts) -> Result<(), NoMemory> {
    for i in 0..40u8 {
        match i {
            0 => put(own, texts.id_of(b"G")?, 2)?,
            1 => put(own, texts.id_of(b"H")?, 0)?,
            27 => put(own, texts.id_of(b"BINARY-APPEND")?, 2)?,
            31 => put(own, texts.id_of(b"MEMBER-EQUAL")?, 2)?,
            _ => put(own, texts.id_of(&[200 + i])?, 1)?,
        }
    }
    Ok(())
}

fn put_variables(vars: &mut Names, texts: &mut Texts) -> Result<(), NoMemory> {
    vars.push(texts.id_of(b"X")?)?;
    vars.push(texts.id_of(b"Y")?)?;
    vars.push(texts.id_of(b"Z")?)?;
    Ok(())
}

fn scope_of(alloc: Global, kind: Kind, texts: &mut Texts) -> Result<Scope, NoMemory> {
    let mut scope = Scope {
        vars: Names::new(alloc),
        every: kind == Kind::Theorem,
        own: Owns::new(alloc),
    };
    if kind != Kind::Theorem {
        put_variables(&mut scope.vars, texts)?;
    }
    if kind == Kind::Full {
        put_definitions(&mut scope.own, texts)?;
    }
    Ok(scope)
}

/// The world without definitions in which `*C*` is 5.
fn world_of(alloc: Global, texts: &mut Texts) -> Result<World, NoMemory> {
    let mut world = World::new(alloc)?;
    world.set_constant(texts.id_of(b"*C*")?, Tree::int(5))?;
    Ok(world)
}

fn code(fault: TermFault) -> &'static [u8] {
    match fault {
        TermFault::UnknownFunction => b"V4",
        TermFault::WrongCount => b"V5",
        TermFault::UnboundVariable => b"V6",
        TermFault::BadUse => b"V7",
        TermFault::TooDeep => b"V12",
        TermFault::Memory => b"memory",
    }
}

/// The term of a form as an object, or the symbol of its code.
fn answer(
    alloc: Global,
    form: &Tree,
    scope: &Scope,
    world: &World,
    texts: &mut Texts,
) -> Result<Tree, NoMemory> {
    match term(alloc, form, scope, world, texts) {
        Ok(term) => object_of(alloc, &term, texts),
        Err(fault) => Ok(Tree::symbol(texts.id_of(code(fault))?)),
    }
}

fn try_row(
    rt: &impl Abort,
    alloc: Global,
    scope: &Scope,
    world: &World,
    texts: &mut Texts,
    row: &str,
) -> Result<(), NoMemory> {
    let (form, wanted) = row.split_once(" => ").expect(rt, row);
    let read = form_of(alloc, form.as_bytes(), texts)?;
    let given = answer(alloc, &read, scope, world, texts)?;
    let read = form_of(alloc, wanted.as_bytes(), texts)?;
    assert!(rt; given.same(&read), "{row}");
    Ok(())
}

/// A row is a form and its term, or the code of its fault, on one line; the first line is empty.
fn try_rows(rt: &impl Abort, alloc: Global, kind: Kind, rows: &str) -> Result<(), NoMemory> {
    let mut texts = Texts::new(alloc)?;
    let scope = scope_of(alloc, kind, &mut texts)?;
    let world = world_of(alloc, &mut texts)?;
    for row in rows.lines().skip(1) {
        try_row(rt, alloc, &scope, &world, &mut texts, row)?;
    }
    Ok(())
}
