//! The objects that terms are compared by.

use crate::tests::reader::{list_onto, pair_of};
use gl_logic::{Names, NoMemory, Prim, Term, Texts, Tree};
use std::alloc::Global;

/// The list of four.
fn four_of(alloc: Global, head: Tree, a: Tree, b: Tree, c: Tree) -> Result<Tree, NoMemory> {
    let rest = pair_of(alloc, b, c)?;
    let rest = Tree::pair(alloc, a, rest)?;
    Tree::pair(alloc, head, rest)
}

fn names_object(alloc: Global, names: &Names) -> Result<Tree, NoMemory> {
    let mut items = Vec::new(alloc);
    for i in 0..names.len() {
        items.push(Tree::symbol(*names.at(i)))?;
    }
    list_onto(alloc, items, Tree::nil())
}

fn word(word: &[u8], texts: &mut Texts) -> Result<Tree, NoMemory> {
    Ok(Tree::symbol(texts.id_of(word)?))
}

/// The word of a primitive.
fn prim_word(named: Prim) -> &'static [u8] {
    match named {
        Prim::Consp => b"CONSP",
        Prim::Integerp => b"INTEGERP",
        Prim::Symbolp => b"SYMBOLP",
        Prim::Stringp => b"STRINGP",
        Prim::Characterp => b"CHARACTERP",
        Prim::Cons => b"CONS",
        Prim::Car => b"CAR",
        Prim::Cdr => b"CDR",
        Prim::Equal => b"EQUAL",
        Prim::Not => b"NOT",
        Prim::CharCode => b"CHAR-CODE",
        Prim::CodeChar => b"CODE-CHAR",
        Prim::BinaryPlus => b"BINARY-+",
        Prim::BinaryTimes => b"BINARY-*",
        Prim::UnaryMinus => b"UNARY--",
        Prim::Less => b"<",
        Prim::Floor => b"FLOOR",
        Prim::Mod => b"MOD",
        Prim::Truncate => b"TRUNCATE",
        Prim::Rem => b"REM",
        Prim::Ash => b"ASH",
        Prim::BinaryLogand => b"BINARY-LOGAND",
        Prim::BinaryLogior => b"BINARY-LOGIOR",
        Prim::BinaryLogxor => b"BINARY-LOGXOR",
        Prim::Lognot => b"LOGNOT",
        Prim::Logbitp => b"LOGBITP",
        Prim::IntegerLength => b"INTEGER-LENGTH",
        Prim::UnsignedByteP => b"UNSIGNED-BYTE-P",
        Prim::SignedByteP => b"SIGNED-BYTE-P",
    }
}

/// A term as an object: `(QUOTE x)`, `(IF a b c)`, a primitive by its word, a call by its number, and
/// `(LET names terms body)`.
#[cycle(object)]
pub(in crate::tests) fn object_of(
    alloc: Global,
    term: &Term,
    texts: &mut Texts,
) -> Result<Tree, NoMemory> {
    match term {
        Term::Var(name) => Ok(Tree::symbol(*name)),
        Term::Const(object) => pair_of(alloc, word(b"QUOTE", texts)?, object.copy(alloc)?),
        Term::If(test, then, otherwise) => {
            let a = object_of(alloc, test, texts)?;
            let b = object_of(alloc, then, texts)?;
            let c = object_of(alloc, otherwise, texts)?;
            four_of(alloc, word(b"IF", texts)?, a, b, c)
        }
        Term::Prim(prim, terms) => {
            let rest = objects_of(alloc, terms.as_slice(), texts)?;
            Tree::pair(alloc, word(prim_word(*prim), texts)?, rest)
        }
        Term::Call(f, terms) => {
            let rest = objects_of(alloc, terms.as_slice(), texts)?;
            Tree::pair(alloc, Tree::int(i128::from(f.number)), rest)
        }
        Term::Let(names, terms, body) => {
            let values = objects_of(alloc, terms.as_slice(), texts)?;
            let body = object_of(alloc, body, texts)?;
            let names = names_object(alloc, names)?;
            four_of(alloc, word(b"LET", texts)?, names, values, body)
        }
    }
}

#[cycle(object)]
fn objects_of(alloc: Global, terms: &[Term], texts: &mut Texts) -> Result<Tree, NoMemory> {
    let mut items = Vec::new(alloc);
    for term in terms {
        items.push(object_of(alloc, term, texts)?)?;
    }
    list_onto(alloc, items, Tree::nil())
}
