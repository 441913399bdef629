//! Forms that are made here.

ghost use Rattle.std.specs.Prelude.{◌≡◌, IfOk};
ghost use Rattle.gl_logic.specs.Object.{Cons, car, cdr, nil};

use gl_logic::{NoMemory, Texts, Tree};
use std::alloc::Global;

/// A symbol.
pub(crate) fn word(texts: &mut Texts, name: &[u8]) -> Result<Tree, NoMemory> {
    Ok(Tree::symbol(texts.id_of(name)?))
}

/// The list of some forms.
pub(crate) fn list(alloc: Global, parts: Vec<Tree>) -> Result<Tree, NoMemory> {
    let mut parts = parts;
    let mut list = Tree::nil();
    for _ in 0..parts.len() {
        if let Some(part) = parts.pop() {
            list = Tree::pair(alloc, part, list)?;
        }
    }
    Ok(list)
}

/// A call of a function, a macro or an event on some forms.
pub(crate) fn call(
    alloc: Global,
    texts: &mut Texts,
    head: &[u8],
    operands: Vec<Tree>,
) -> Result<Tree, NoMemory> {
    let operands = list(alloc, operands)?;
    Tree::pair(alloc, word(texts, head)?, operands)
}

/// A call on one form.
pub(crate) fn call_on(
    alloc: Global,
    texts: &mut Texts,
    head: &[u8],
    operand: Tree,
) -> Result<Tree, NoMemory>
    ensures { IfOk result (λ t. cdr t ≡ Cons operand nil) }
{
    let operands = Tree::pair(alloc, operand, Tree::nil())?;
    Tree::pair(alloc, word(texts, head)?, operands)
}

/// A call on two forms.
pub(crate) fn call_on_two(
    alloc: Global,
    texts: &mut Texts,
    head: &[u8],
    first: Tree,
    second: Tree,
) -> Result<Tree, NoMemory>
    ensures { IfOk result (λ t. cdr t ≡ Cons first (Cons second nil)) }
{
    let rest = Tree::pair(alloc, second, Tree::nil())?;
    let operands = Tree::pair(alloc, first, rest)?;
    Tree::pair(alloc, word(texts, head)?, operands)
}

/// An object behind a quote.
pub(crate) fn quoted(alloc: Global, texts: &mut Texts, object: &Tree) -> Result<Tree, NoMemory>
    ensures { IfOk result (λ t. cdr t ≡ Cons object.now nil) }
{
    let object = object.copy(alloc)?;
    call_on(alloc, texts, b"QUOTE", object)
}

/// What binds a variable of a `let` to an object.
pub(crate) fn binding(
    alloc: Global,
    texts: &mut Texts,
    variable: Tree,
    object: &Tree,
) -> Result<Tree, NoMemory>
    ensures { IfOk result (λ t. car t ≡ variable) }
{
    let object = quoted(alloc, texts, object)?;
    let rest = Tree::pair(alloc, object, Tree::nil())?;
    Tree::pair(alloc, variable, rest)
}
