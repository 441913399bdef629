//! Forms that are still to be translated.

use gl_logic::{FnId, Names, Prim, TextId, Tree};

/// A form that is still to be translated: one of the book, or one that a macro means. Lists of forms,
/// clauses and bindings stand from the last to the first.
#[derive(Clone, Copy)]
pub enum Form<'a> {
    /// A form of the book.
    Book(&'a Tree),
    /// An object that stands for itself.
    Quoted(&'a Tree),
    /// A number that stands for itself.
    Number(i128),
    /// NIL.
    Nil,
    /// A symbol.
    Symbol(TextId),
    /// `(and ..)`
    And(&'a [Tree]),
    /// `(or ..)`
    Or(&'a [Tree]),
    /// `(cond ..)`, of these clauses.
    Cond(&'a [Tree]),
    /// `(list ..)`
    List(&'a [Tree]),
    /// Calls of a primitive inside one another, to the right.
    Nested(Prim, &'a [Tree]),
    /// `(append ..)`
    Append(&'a [Tree]),
    /// What is left of a `case`, of these clauses.
    Choices(&'a [Tree]),
    /// Whether the variable of a `case` matches this key.
    Test(&'a Tree),
    /// `(let* ..)`, of these bindings and this body.
    Bindings(&'a [Tree], &'a Tree),
    /// A chain of `car` and `cdr`, by the letters A and D.
    Path(&'a [u8], &'a Tree),
    /// A primitive of one argument.
    Unary(Prim, &'a Tree),
    /// A primitive of two arguments.
    Binary(Prim, &'a Tree, &'a Tree),
    /// `(unary-- 1)`
    LessOne,
}

/// What a form is, one step of the table on: a term without parts, or one whose parts are forms.
#[derive(Drop)]
pub enum Step<'a> {
    Constant(Tree),
    Symbol(TextId),
    If(Form<'a>, Form<'a>, Form<'a>),
    /// `(if a a b)`
    Or(Form<'a>, Form<'a>),
    Prim(Prim, Vec<Form<'a>>),
    Call(FnId, Vec<Form<'a>>),
    Let(Names, Vec<Form<'a>>, Form<'a>),
    /// The form is one of its own parts.
    Same(&'a Tree),
}
