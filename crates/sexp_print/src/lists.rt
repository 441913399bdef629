//! Objects of every kind.

ghost use Rattle.std.specs.Prelude.{◌≡◌, ◌<◌, ◌++◌, length, OnOk, OnErr};
ghost use Rattle.gl_logic.specs.Object.{Object};
ghost use Rattle.gl_logic.specs.Kind.{kind_of};
ghost use Rattle.gl_logic.specs.declared.tree.TreeKind.TheVariants.{List};
ghost use Rattle.gl_logic.specs.Lists.{conses};
ghost use Rattle.sexp_print.specs.Printed.{printed, rest_printed, inside_printed, BeginsWith};

use super::atoms::{append_atom, append_bytes, append_tail};
use gl_logic::{NoMemory, Texts, Tree, TreeKind};
use std::alloc::Global;

/// Appends the bytes of an object to `out`, which stays as it was where memory runs out.
///
/// Integers are decimal, symbols their names, strings stand in double quotes, characters are written
/// as the reader takes them, and a list stands in parentheses with single blanks. Nothing is
/// abbreviated. Goes as deep as elements are lists of lists; along a list it loops.
pub fn print(alloc: Global, tree: &Tree, texts: &Texts, out: &mut Vec<u8>) -> Result<(), NoMemory>
    ensures ok { OnOk result (out.new.items ≡ out.old.items ++ printed texts.now tree.now) }
    ensures err { OnErr result (out.new.items ≡ out.old.items) }
{
    let length = out.len();
    match append(alloc, tree, texts, out) {
        Ok(()) => Ok(()),
        Err(refusal) => {
            out.truncate(length);
            Err(refusal)
        }
    }
}

#[cycle(print)]
fn append(alloc: Global, tree: &Tree, texts: &Texts, out: &mut Vec<u8>) -> Result<(), NoMemory>
    ensures ok { OnOk result (out.new.items ≡ out.old.items ++ printed texts.now tree.now) }
    ensures err { OnErr result (BeginsWith out.old.items out.new.items) }
{
    match tree.kind() {
        TreeKind::List => append_list(alloc, tree, texts, out),
        _ => append_atom(alloc, tree, texts, out),
    }
}

#[cycle(print)]
#[tactic(auto, using(crate::proofs::Begins::begins_behind, crate::proofs::Begins::begins_trans))]
fn append_list(alloc: Global, list: &Tree, texts: &Texts, out: &mut Vec<u8>) -> Result<(), NoMemory>
    requires { kind_of list.now ≡ List }
    ensures ok { OnOk result (out.new.items ≡ out.old.items ++ printed texts.now list.now) }
    ensures err { OnErr result (BeginsWith out.old.items out.new.items) }
{
    append_bytes(b"(", out)?;
    append_elements(alloc, list.elements(), texts, out)?;
    append_tail(alloc, list.tail(), texts, out)?;
    append_bytes(b")", out)
}

/// Appends the elements of a list, which are given from the last to the first, with single blanks.
#[cycle(print)]
fn append_elements(
    alloc: Global,
    elements: &[Tree],
    texts: &Texts,
    out: &mut Vec<u8>,
) -> Result<(), NoMemory>
    requires { 0 < length elements.now }
    ensures ok { OnOk result ((tail : Object) → out.new.items ++ rest_printed texts.now tail ≡ out.old.items ++ inside_printed texts.now (conses elements.now tail)) }
    ensures err { OnErr result (BeginsWith out.old.items out.new.items) }
{
    let mut left = elements.len() - 1;
    append(alloc, &elements[left], texts, out)?;
    while left > 0 {
        left -= 1;
        append_bytes(b" ", out)?;
        append(alloc, &elements[left], texts, out)?;
    }
    Ok(())
}
