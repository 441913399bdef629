//! Steps of forms whose parts stand in a list.

ghost use Rattle.std.specs.Prelude.{◌≡◌, ℕ, ◌<◌, [], ◌∷◌, map, reverse, length, IfOk, IfSome, MatchOption, None, Some};
ghost use Rattle.gl_logic.specs.Lists.{conses};
ghost use Rattle.gl_logic.specs.Object.{Int, nil};
ghost use Rattle.gl_logic.specs.PrimValue.{prim_arity};
ghost use Rattle.gl_logic.specs.declared.prim.Primitive.TheVariants as prim;
ghost use Rattle.gl_translate.specs.declared.fault.TermFault.TheVariants as term_fault;
ghost use Rattle.gl_translate.specs.Setting.{Setting};
ghost use Rattle.gl_translate.specs.Meaning.{prim_call, literal, fault};
ghost use Rattle.gl_translate.specs.Macros.{if_call, quote_call, and_form, or_form, list_form, path_form, of_one, of_two, sum_form, nested_or, prim1, prim2};
ghost use Rattle.gl_logic.specs.Wording.{elements as elements_in};
ghost use Rattle.gl_translate.specs.Translation.{meaning, meanings, bindings, parts};
ghost use Rattle.gl_translate.specs.Steps.{Takes, IsBelow, means_of, parts_of as parts_in, bindings_of, weight, form_means};

use super::fault::TermFault;
use super::form::{Form, Step};
use gl_logic::wording::has_mark;
use gl_logic::{Names, NoMemory, Prim, TextId, Tree};
use std::alloc::Global;

/// The list of one form.
pub(crate) fn one<'f>(alloc: Global, form: Form<'f>) -> Result<Vec<Form<'f>>, NoMemory>
    ensures { IfOk result (λ fs. fs.items ≡ form.entry ∷ []) }
{
    let mut forms = Vec::new(alloc);
    forms.push(form)?;
    Ok(forms)
}

/// The list of one name.
pub(crate) fn one_name(alloc: Global, name: TextId) -> Result<Names, NoMemory>
    ensures { IfOk result (λ n. n ≡ name.number ∷ []) }
{
    let mut names = Names::new(alloc);
    names.push(name)?;
    Ok(names)
}

/// The list of two forms.
pub(crate) fn two<'f>(
    alloc: Global,
    first: Form<'f>,
    second: Form<'f>,
) -> Result<Vec<Form<'f>>, NoMemory>
    ensures { IfOk result (λ fs. fs.items ≡ first.entry ∷ second.entry ∷ []) }
{
    let mut forms = Vec::new(alloc);
    forms.push(first)?;
    forms.push(second)?;
    Ok(forms)
}

/// A primitive of one part.
pub(crate) fn unary<'f>(alloc: Global, prim: Prim, part: Form<'f>) -> Result<Step<'f>, TermFault>
    ensures takes { (s : Setting) → Takes s (prim1 prim (form_means s part.entry)) result }
    ensures below { (n : ℕ) → IfOk result (IsBelow n) }
{
    Ok(Step::Prim(prim, one(alloc, part)?))
}

/// A primitive of two parts.
pub(crate) fn binary<'f>(
    alloc: Global,
    prim: Prim,
    first: Form<'f>,
    second: Form<'f>,
) -> Result<Step<'f>, TermFault>
    ensures takes { (s : Setting) → Takes s (prim2 prim (form_means s first.entry) (form_means s second.entry)) result }
    ensures below { (n : ℕ) → IfOk result (IsBelow n) }
{
    Ok(Step::Prim(prim, two(alloc, first, second)?))
}

/// Forms of the book, which stand from the last to the first, from the first to the last.
pub(crate) fn books(alloc: Global, forms: &[Tree]) -> Result<Vec<Form<'_>>, NoMemory>
    ensures { (s : Setting) → IfOk result (λ fs. map (form_means s) fs.items ≡ means_of s forms.now) }
{
    let mut all = Vec::new(alloc);
    let mut left = forms.len();
    while left > 0 {
        left -= 1;
        all.push(Form::Book(&forms[left]))?;
    }
    Ok(all)
}

/// The elements of a proper list from the last to the first, and None for anything else.
pub(crate) fn parts_of(form: &Tree) -> Option<&[Tree]>
    ensures proper { IfSome result (λ es. form.now ≡ conses es.now nil) }
    ensures elements { MatchOption result (elements_in form.now ≡ None) (λ es. elements_in form.now ≡ Some (reverse es.now)) }
    ensures meanings { (s : Setting) → MatchOption result (meanings s form.now ≡ None) (λ es. meanings s form.now ≡ Some (means_of s es.now)) }
    ensures bindings { (s : Setting) → MatchOption result (bindings s form.now ≡ None) (λ es. bindings s form.now ≡ Some (bindings_of s es.now)) }
{
    if form.tail().is_nil() {
        Some(form.elements())
    } else {
        None
    }
}

/// `(if a b c)`
pub(crate) fn if_step(forms: &[Tree]) -> Result<Step<'_>, TermFault>
    ensures takes { (s : Setting) → Takes s (if_call (means_of s forms.now)) result }
    ensures below { (n : ℕ) → IfOk result (IsBelow n) }
{
    match forms {
        [c, b, a] => Ok(Step::If(Form::Book(a), Form::Book(b), Form::Book(c))),
        _ => Err(TermFault::WrongCount),
    }
}

/// `(quote x)`
pub(crate) fn quote_step(alloc: Global, forms: &[Tree]) -> Result<Step<'_>, TermFault>
    ensures takes { (s : Setting) → Takes s (quote_call (parts_in s forms.now)) result }
    ensures below { (n : ℕ) → IfOk result (IsBelow n) }
{
    match forms {
        [x] => {
            if has_mark(x) {
                Err(TermFault::BadUse)
            } else {
                Ok(Step::Constant(x.copy(alloc)?))
            }
        }
        _ => Err(TermFault::WrongCount),
    }
}

/// `(and ..)`
pub(crate) fn and_step(forms: &[Tree]) -> Result<Step<'_>, TermFault>
    ensures takes { (s : Setting) → Takes s (and_form (means_of s forms.now)) result }
    ensures below { IfOk result (IsBelow (weight forms.now)) }
{
    match forms {
        [] => Ok(Step::Constant(Tree::symbol(TextId { number: 1 }))),
        [only] => Ok(Step::Same(only)),
        [rest @ .., first] => Ok(Step::If(Form::Book(first), Form::And(rest), Form::Nil)),
    }
}

/// `(or ..)`
pub(crate) fn or_step(forms: &[Tree]) -> Result<Step<'_>, TermFault>
    ensures takes { (s : Setting) → Takes s (or_form (means_of s forms.now)) result }
    ensures below { IfOk result (IsBelow (weight forms.now)) }
{
    match forms {
        [] => Ok(Step::Constant(Tree::nil())),
        [only] => Ok(Step::Same(only)),
        [rest @ .., first] => Ok(Step::Or(Form::Book(first), Form::Or(rest))),
    }
}

/// `(list ..)`
pub(crate) fn list_step(alloc: Global, forms: &[Tree]) -> Result<Step<'_>, TermFault>
    ensures takes { (s : Setting) → Takes s (list_form (means_of s forms.now)) result }
    ensures below { (n : ℕ) → IfOk result (IsBelow n) }
{
    match forms {
        [] => Ok(Step::Constant(Tree::nil())),
        [rest @ .., first] => {
            let pair = two(alloc, Form::Book(first), Form::List(rest))?;
            Ok(Step::Prim(Prim::Cons, pair))
        }
    }
}

/// A chain of `car` and `cdr`, by the letters A and D, the first one outermost.
pub(crate) fn path_step<'f>(
    alloc: Global,
    letters: &'f [u8],
    form: &'f Tree,
) -> Result<Step<'f>, TermFault>
    ensures takes { (s : Setting) → Takes s (path_form letters.now (meaning s form.now)) result }
    ensures below { (n : ℕ) → 0 < length letters.now → IfOk result (IsBelow n) }
{
    match letters {
        [] => Ok(Step::Same(form)),
        [letter, rest @ ..] => {
            let prim = if *letter == b'A' {
                Prim::Car
            } else {
                Prim::Cdr
            };
            Ok(Step::Prim(prim, one(alloc, Form::Path(rest, form))?))
        }
    }
}

/// The same as a call, of one argument.
pub(crate) fn path_call<'f>(
    alloc: Global,
    letters: &'f [u8],
    forms: &'f [Tree],
) -> Result<Step<'f>, TermFault>
    requires { 0 < length letters.now }
    ensures takes { (s : Setting) → Takes s (of_one (path_form letters.now) (means_of s forms.now)) result }
    ensures below { (n : ℕ) → IfOk result (IsBelow n) }
{
    match forms {
        [form] => path_step(alloc, letters, form),
        _ => Err(TermFault::WrongCount),
    }
}

/// A primitive of forms of the book.
pub(crate) fn prim_step(alloc: Global, prim: Prim, forms: &[Tree]) -> Result<Step<'_>, TermFault>
    ensures takes { (s : Setting) → Takes s (prim_call prim (means_of s forms.now)) result }
    ensures below { (n : ℕ) → IfOk result (IsBelow n) }
{
    if forms.len() == arity(prim) {
        Ok(Step::Prim(prim, books(alloc, forms)?))
    } else {
        Err(TermFault::WrongCount)
    }
}

/// How many arguments a primitive takes.
fn arity(prim: Prim) -> usize
    ensures { result ≡ prim_arity prim }
{
    match prim {
        Prim::Consp
        | Prim::Integerp
        | Prim::Symbolp
        | Prim::Stringp
        | Prim::Characterp
        | Prim::Car
        | Prim::Cdr
        | Prim::Not
        | Prim::CharCode
        | Prim::CodeChar
        | Prim::UnaryMinus
        | Prim::Lognot
        | Prim::IntegerLength => 1,
        _ => 2,
    }
}

/// `(the s a)`
pub(crate) fn the_step(forms: &[Tree]) -> Result<Step<'_>, TermFault>
    ensures takes { (s : Setting) → Takes s (of_two (λ type a. a) (means_of s forms.now)) result }
    ensures below { IfOk result (IsBelow (weight forms.now)) }
{
    match forms {
        [a, _] => Ok(Step::Same(a)),
        _ => Err(TermFault::WrongCount),
    }
}

/// Calls of a primitive inside one another, to the right.
pub(crate) fn nested_step(alloc: Global, prim: Prim, forms: &[Tree]) -> Result<Step<'_>, TermFault>
    ensures takes { (s : Setting) → Takes s (nested_or (literal nil) (prim2 prim) (means_of s forms.now)) result }
    ensures below { IfOk result (IsBelow (weight forms.now)) }
{
    match forms {
        [] => Ok(Step::Constant(Tree::nil())),
        [only] => Ok(Step::Same(only)),
        [rest @ .., first] => {
            let both = two(alloc, Form::Book(first), Form::Nested(prim, rest))?;
            Ok(Step::Prim(prim, both))
        }
    }
}

/// `(list* .. z)`
pub(crate) fn list_star_step(alloc: Global, forms: &[Tree]) -> Result<Step<'_>, TermFault>
    ensures takes { (s : Setting) → Takes s (nested_or (fault term_fault.WrongCount) (prim2 prim.Cons) (means_of s forms.now)) result }
    ensures below { IfOk result (IsBelow (weight forms.now)) }
{
    if forms.is_empty() {
        Err(TermFault::WrongCount)
    } else {
        nested_step(alloc, Prim::Cons, forms)
    }
}

/// `(logand ..)`, `(logior ..)`, `(logxor ..)`
pub(crate) fn bitwise_step(
    alloc: Global,
    prim: Prim,
    none: i128,
    forms: &[Tree],
) -> Result<Step<'_>, TermFault>
    ensures takes { (s : Setting) → Takes s (nested_or (literal (Int none)) (prim2 prim) (means_of s forms.now)) result }
    ensures below { IfOk result (IsBelow (weight forms.now)) }
{
    if forms.is_empty() {
        Ok(Step::Constant(Tree::int(none)))
    } else {
        nested_step(alloc, prim, forms)
    }
}

/// `(+ ..)`, `(* ..)`
pub(crate) fn sum_step(
    alloc: Global,
    prim: Prim,
    unit: i128,
    forms: &[Tree],
) -> Result<Step<'_>, TermFault>
    ensures takes { (s : Setting) → Takes s (sum_form prim unit (means_of s forms.now)) result }
    ensures below { IfOk result (IsBelow (weight forms.now)) }
{
    match forms {
        [] => Ok(Step::Constant(Tree::int(unit))),
        [only] => {
            let both = two(alloc, Form::Number(unit), Form::Book(only))?;
            Ok(Step::Prim(prim, both))
        }
        _ => nested_step(alloc, prim, forms),
    }
}
