//! Objects with what is printed of them, in ample memory.

use super::check;
use gl_logic::{Texts, Tree};
use sexp_print::print;
use std::alloc::Global;
use std::process::Abort;

/// The symbol with this name.
fn symbol(rt: &impl Abort, texts: &mut Texts, name: &[u8]) -> Tree {
    Tree::symbol(texts.id_of(name).expect(rt, "no memory"))
}

/// The pair of two objects.
fn pair(rt: &impl Abort, alloc: Global, first: Tree, rest: Tree) -> Tree {
    Tree::pair(alloc, first, rest).expect(rt, "no memory")
}

/// The list of 1 and NIL.
fn inner(rt: &impl Abort, alloc: Global, texts: &mut Texts) -> Tree {
    let tail = pair(
        rt,
        alloc,
        symbol(rt, texts, b"NIL"),
        symbol(rt, texts, b"NIL"),
    );
    pair(rt, alloc, Tree::int(1), tail)
}

/// A list that begins with a copy of another, and whose last tail is 2.
fn outer(rt: &impl Abort, alloc: Global, texts: &mut Texts, inner: &Tree) -> Tree {
    let tail = pair(rt, alloc, symbol(rt, texts, b"CAR"), Tree::int(2));
    let first = inner.copy(alloc).expect(rt, "no memory");
    pair(rt, alloc, first, tail)
}

/// Prints an object, and compares the bytes.
fn compare(rt: &impl Abort, alloc: Global, texts: &Texts, object: &Tree, want: &str) {
    let mut out = Vec::new(alloc);
    print(alloc, object, texts, &mut out).expect(rt, "no memory");
    check(rt, out.as_slice() == want.as_bytes(), want);
}

/// Objects without parts.
fn compare_atoms(rt: &impl Abort, alloc: Global, texts: &mut Texts) {
    let least = Tree::int(-170_141_183_460_469_231_731_687_303_715_884_105_728);
    compare(
        rt,
        alloc,
        texts,
        &least,
        "-170141183460469231731687303715884105728",
    );
    let car = symbol(rt, texts, b"CAR");
    compare(rt, alloc, texts, &car, "CAR");
    let quoted = Tree::string(texts.id_of(b"a \"b\\c").expect(rt, "no memory"));
    compare(rt, alloc, texts, &quoted, "\"a \\\"b\\\\c\"");
    for (code, want) in [
        (b'a', "#\\a"),
        (b'\n', "#\\Newline"),
        (200, "(CODE-CHAR 200)"),
    ] {
        compare(rt, alloc, texts, &Tree::character(code), want);
    }
}

#[test]
fn each_kind(rt: HostRuntime) {
    let alloc = rt.alloc();
    let mut texts = Texts::new(alloc).expect(&rt, "no memory");
    compare_atoms(&rt, alloc, &mut texts);
    let list = inner(&rt, alloc, &mut texts);
    compare(&rt, alloc, &texts, &list, "(1 NIL)");
    let dotted = outer(&rt, alloc, &mut texts, &list);
    compare(&rt, alloc, &texts, &dotted, "((1 NIL) CAR . 2)");
}
