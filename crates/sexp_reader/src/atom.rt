//! The objects of atoms and prefixes, by a table of texts.

ghost use Rattle.std.specs.Prelude.{◌≡◌, ℕ, List, Some, IfOk, OnOk};
ghost use Rattle.gl_logic.specs.Names.{Extends};
ghost use Rattle.sexp_reader.specs.Gathers.{text_of, with_text, Adds};
ghost use Rattle.sexp_reader.specs.Grammar.{object_of, mark_text, place_in};

use crate::lexeme::{Atom, Lexeme, Mark};
use gl_logic::{NoMemory, TextId, Texts, Tree};

/// The object of an atom, in this table and in each that begins with it.
pub fn tree_of(atom: Atom, texts: &mut Texts) -> Result<Tree, NoMemory>
    ensures tree { IfOk result (λ tree. (later : List (List ℕ)) → Extends texts.new later → tree ≡ object_of later atom) }
    ensures asked { OnOk result (texts.new ≡ with_text texts.old (text_of (Lexeme.Atom atom))) }
    ensures adds { Adds (text_of (Lexeme.Atom atom)) texts.old texts.new }
    ensures kept { Extends texts.old texts.new }
{
    match atom {
        Atom::Integer(integer) => Ok(Tree::int(integer)),
        Atom::Character(code) => Ok(Tree::character(code)),
        Atom::Symbol(text) => Ok(Tree::symbol(texts.id_of(text.as_slice())?)),
        Atom::String(text) => Ok(Tree::string(texts.id_of(text.as_slice())?)),
    }
}

/// The symbol that a prefix stands for, in this table and in each that begins with it.
pub fn symbol_of(mark: Mark, texts: &mut Texts) -> Result<TextId, NoMemory>
    ensures symbol { IfOk result (λ id. (later : List (List ℕ)) → Extends texts.new later → id.number ≡ place_in later (mark_text mark)) }
    ensures asked { OnOk result (texts.new ≡ with_text texts.old (Some (mark_text mark))) }
    ensures adds { Adds (Some (mark_text mark)) texts.old texts.new }
    ensures kept { Extends texts.old texts.new }
{
    match mark {
        Mark::Quote => texts.id_of(b"QUOTE"),
        Mark::Backquote => texts.id_of(b"`"),
        Mark::Comma => texts.id_of(b","),
    }
}
