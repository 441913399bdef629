//! A conclusion opened: the sides and parts of what it says, what a `let` in it binds, and what a definition that it calls says.

use crate::forms::{element, head_of, is_among, operands, word_of};
use crate::making::{call_on_two, list};
use book_shelf::{Item, Library};
use gl_logic::{NoMemory, Texts, Tree};
use std::alloc::Global;

/// How deep a conclusion is opened, and how many of its parts are shown.
const DEEPEST: usize = 3;

const MOST_PARTS: usize = 24;

/// Calls whose operands are parts.
const PARTED: &str = "EQUAL = EQL EQ < <= > >= AND OR NOT IMPLIES IFF";

/// What is open around a part: a `let`, or a call of a definition with these formals.
#[derive(Clone, Copy)]
enum Open<'a> {
    Let(&'a Tree),
    Call(&'a Tree, &'a Tree),
}

/// What is open around a part, and the number of what is open around that.
#[derive(Clone, Copy)]
struct Scope<'a> {
    open: Open<'a>,
    outer: Option<usize>,
}

/// A part of a conclusion: how deep it stands, the number of the part that it is of, and of what is open around it; and whether it
/// is all that the conclusion says.
#[derive(Clone, Copy)]
pub(crate) struct Opened<'a> {
    pub tree: &'a Tree,
    pub depth: usize,
    pub parent: Option<usize>,
    scope: Option<usize>,
    is_whole: bool,
}

/// The parts of a conclusion, in the order in which they are told.
#[derive(Drop)]
pub(crate) struct Parts<'a> {
    pub all: Vec<Opened<'a>>,
    scopes: Vec<Scope<'a>>,
    left: Vec<Opened<'a>>,
}

/// The form of the definition of a name among the forms in front of an item, also inside a clique.
fn definition_in<'a>(
    library: &'a Library,
    texts: &Texts,
    name: &[u8],
    end: u64,
) -> Option<&'a Tree> {
    for number in 0..end {
        if number >= library.items.len() {
            return None;
        }
        if let Item::Form(form) = library.items.at(number) {
            if let Some(found) = defined_by(texts, &form.tree, name) {
                return Some(found);
            }
        }
    }
    None
}

/// The form of a definition of a name that a form is or has in it.
fn defined_by<'a>(texts: &Texts, form: &'a Tree, name: &[u8]) -> Option<&'a Tree> {
    if is_definition(texts, form, name) {
        return Some(form);
    }
    if head_of(texts, form) == b"MUTUAL-RECURSION".as_slice() {
        for member in operands(form) {
            if is_definition(texts, member, name) {
                return Some(member);
            }
        }
    }
    None
}

fn is_definition(texts: &Texts, form: &Tree, name: &[u8]) -> bool {
    match element(form, 1) {
        Some(word) => head_of(texts, form) == b"DEFUN".as_slice() && word_of(texts, word) == name,
        None => false,
    }
}

/// Where definitions stand: a list of books, up to an item.
#[derive(Clone, Copy)]
pub struct Before<'a> {
    pub library: &'a Library,
    pub item: u64,
}

impl<'a> Parts<'a> {
    /// The parts of a term.
    pub(crate) fn of(
        alloc: Global,
        texts: &Texts,
        before: Before<'a>,
        term: &'a Tree,
    ) -> Result<Parts<'a>, NoMemory> {
        let mut parts = Parts {
            all: Vec::new(alloc),
            scopes: Vec::new(alloc),
            left: Vec::new(alloc),
        };
        parts.left.push(Opened {
            tree: term,
            depth: 0,
            parent: None,
            scope: None,
            is_whole: true,
        })?;
        for _ in 0..MOST_PARTS {
            if let Some(part) = parts.left.pop() {
                let number = parts.all.len();
                parts.all.push(part)?;
                if part.depth < DEEPEST {
                    parts.open(texts, before, part, number)?;
                }
            }
        }
        Ok(parts)
    }

    /// Leaves a part of a part to be taken, in a scope.
    fn leave(
        &mut self,
        tree: &'a Tree,
        of: Opened<'a>,
        number: usize,
        scope: Option<usize>,
        is_whole: bool,
    ) -> Result<(), NoMemory> {
        self.left.push(Opened {
            tree,
            depth: of.depth.saturating_add(1),
            parent: Some(number),
            scope,
            is_whole,
        })?;
        Ok(())
    }

    /// Leaves the parts of a part to be taken.
    fn open(
        &mut self,
        texts: &Texts,
        before: Before<'a>,
        part: Opened<'a>,
        number: usize,
    ) -> Result<(), NoMemory> {
        let head = head_of(texts, part.tree);
        if is_among(head, PARTED) {
            for operand in operands(part.tree) {
                self.leave(operand, part, number, part.scope, false)?;
            }
            return Ok(());
        }
        if is_among(head, "LET LET*") {
            return self.open_let(part, number);
        }
        if !part.is_whole {
            return Ok(());
        }
        match definition_in(before.library, texts, head, before.item) {
            Some(definition) => self.open_call(definition, part, number),
            None => Ok(()),
        }
    }

    /// Leaves what a `let` binds, and its body.
    fn open_let(&mut self, part: Opened<'a>, number: usize) -> Result<(), NoMemory> {
        let (Some(bindings), [body, _, _, ..]) = (element(part.tree, 1), part.tree.elements())
        else {
            return Ok(());
        };
        let scope = Some(self.scopes.len());
        self.scopes.push(Scope {
            open: Open::Let(part.tree),
            outer: part.scope,
        })?;
        self.leave(body, part, number, scope, part.is_whole)?;
        for binding in bindings.elements() {
            if let Some(name) = element(binding, 0) {
                self.leave(name, part, number, scope, false)?;
            }
        }
        Ok(())
    }

    /// Leaves the body of a definition that is called.
    fn open_call(
        &mut self,
        definition: &'a Tree,
        part: Opened<'a>,
        number: usize,
    ) -> Result<(), NoMemory> {
        let (Some(formals), [body, _, _, _, ..]) = (element(definition, 2), definition.elements())
        else {
            return Ok(());
        };
        let scope = Some(self.scopes.len());
        self.scopes.push(Scope {
            open: Open::Call(formals, part.tree),
            outer: part.scope,
        })?;
        self.leave(body, part, number, scope, true)
    }

    /// A part as a term outside of what is open around it.
    pub(crate) fn term(
        &self,
        alloc: Global,
        texts: &mut Texts,
        part: Opened<'a>,
    ) -> Result<Tree, NoMemory> {
        let mut term = part.tree.copy(alloc)?;
        let mut scope = part.scope;
        for _ in 0..self.scopes.len() {
            let Some(number) = scope else {
                return Ok(term);
            };
            let Some(around) = self.scopes.get(number) else {
                return Ok(term);
            };
            term = inside(alloc, texts, around.open, term)?;
            scope = around.outer;
        }
        Ok(term)
    }
}

/// What binds formals to the operands of a call.
fn bound_to(alloc: Global, formals: &Tree, call: &Tree) -> Result<Tree, NoMemory> {
    let mut bound = Vec::new(alloc);
    for number in 0..formals.elements().len() {
        if let (Some(formal), Some(operand)) = (
            element(formals, number),
            element(call, number.saturating_add(1)),
        ) {
            let rest = Tree::pair(alloc, operand.copy(alloc)?, Tree::nil())?;
            bound.push(Tree::pair(alloc, formal.copy(alloc)?, rest)?)?;
        }
    }
    list(alloc, bound)
}

/// A term inside what is open around it.
fn inside(alloc: Global, texts: &mut Texts, open: Open, term: Tree) -> Result<Tree, NoMemory> {
    match open {
        Open::Let(form) => {
            let bindings = match element(form, 1) {
                Some(bindings) => bindings.copy(alloc)?,
                None => Tree::nil(),
            };
            let is_serial = head_of(texts, form) == b"LET*".as_slice();
            let head = if is_serial {
                b"LET*".as_slice()
            } else {
                b"LET".as_slice()
            };
            call_on_two(alloc, texts, head, bindings, term)
        }
        Open::Call(formals, call) => {
            let bound = bound_to(alloc, formals, call)?;
            call_on_two(alloc, texts, b"LET", bound, term)
        }
    }
}
