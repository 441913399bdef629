//! Steps of forms by their heads.

ghost use Rattle.std.specs.Prelude.{◌≡◌, ◌<◌, ℕ, length, map, IfOk};
ghost use Rattle.gl_logic.specs.Kind.{kind_of};
ghost use Rattle.gl_logic.specs.Lists.{size_of, conses};
ghost use Rattle.gl_logic.specs.Object.{nil};
ghost use Rattle.gl_logic.specs.declared.tree.TreeKind.TheVariants.{List};
ghost use Rattle.gl_translate.specs.Meaning.{literal, numbered_call};
ghost use Rattle.gl_translate.specs.Macros.{member_form, mbe_form, nested_or};
ghost use Rattle.gl_translate.specs.Translation.{meaning};
ghost use Rattle.gl_translate.specs.Heads.{macro_form, head_means};
ghost use Rattle.gl_translate.specs.Steps.{Takes, IsBelow, means_of, parts_of as parts_in, form_means, weight};

use super::choices::cond_step;
use super::context::{BINARY_APPEND, Context, MEMBER_EQUAL, head_of};
use super::fault::TermFault;
use super::form::{Form, Step};
use super::macros::Macro;
use super::words::{is_path, macro_named, prim_named};
use super::{arithmetic, steps};
use gl_logic::{FnId, Prim, TextId, Tree, TreeKind};

impl Context<'_> {
    ghost use Rattle.gl_translate.specs.Translation.{of_function};
    ghost use Rattle.gl_translate.specs.Macros.{append_call};
    ghost use Rattle.gl_translate.specs.Steps.{option_fault};
    ghost use Rattle.gl_translate.specs.Contexts.{setting_in};

    /// One step of a form of the book.
    fn book_step<'f>(&'f self, form: &'f Tree) -> Result<Step<'f>, TermFault>
        ensures takes { Takes (setting_in self.now) (meaning (setting_in self.now) form.now) result }
        ensures below { IfOk result (IsBelow (size_of form.now)) }
    {
        match form.kind() {
            TreeKind::Symbol(name) => Ok(Step::Symbol(name)),
            TreeKind::List => self.list_step(form),
            _ => Ok(Step::Constant(form.copy(self.alloc)?)),
        }
    }

    fn list_step<'f>(&'f self, form: &'f Tree) -> Result<Step<'f>, TermFault>
        requires { kind_of form.now ≡ List }
        ensures takes { Takes (setting_in self.now) (meaning (setting_in self.now) form.now) result }
        ensures below { IfOk result (IsBelow (size_of form.now)) }
    {
        match steps::parts_of(form) {
            Some(parts) => self.parts_step(parts),
            None => Err(TermFault::BadUse),
        }
    }

    /// One step of a proper list.
    fn parts_step<'f>(&'f self, parts: &'f [Tree]) -> Result<Step<'f>, TermFault>
        requires { 0 < length parts.now }
        ensures takes { Takes (setting_in self.now) (meaning (setting_in self.now) (conses parts.now nil)) result }
        ensures below { IfOk result (IsBelow (weight parts.now)) }
    {
        match parts {
            [forms @ .., head] => match head_of(head) {
                Some(name) => self.headed_step(name, forms),
                None => Err(TermFault::BadUse),
            },
            [] => unreachable!(),
        }
    }

    /// A head with its arguments: `if` and `quote`, then a macro, a chain of `car` and `cdr`, a
    /// primitive, a definition.
    fn headed_step<'f>(&'f self, head: TextId, forms: &'f [Tree]) -> Result<Step<'f>, TermFault>
        ensures takes { Takes (setting_in self.now) (head_means (setting_in self.now) head.number (parts_in (setting_in self.now) forms.now)) result }
        ensures below { IfOk result (IsBelow (weight forms.now)) }
    {
        let word = self.texts.text(head);
        if word == b"IF".as_slice() {
            return steps::if_step(forms);
        }
        if word == b"QUOTE".as_slice() {
            return steps::quote_step(self.alloc, forms);
        }
        match macro_named(word) {
            Some(found) => self.macro_step(found, forms),
            None => self.function_step(head, forms),
        }
    }

    fn function_step<'f>(&'f self, head: TextId, forms: &'f [Tree]) -> Result<Step<'f>, TermFault>
        ensures takes { Takes (setting_in self.now) (of_function (setting_in self.now) head.number (parts_in (setting_in self.now) forms.now)) result }
        ensures below { (n : ℕ) → IfOk result (IsBelow n) }
    {
        let word = self.texts.text(head);
        if is_path(word) {
            return steps::path_call(self.alloc, &word[1..word.len() - 1], forms);
        }
        match prim_named(word) {
            Some(prim) => steps::prim_step(self.alloc, prim, forms),
            None => match self.find(head) {
                Some(f) => self.call_step(f, forms),
                None => Err(TermFault::UnknownFunction),
            },
        }
    }

    /// A call of a definition.
    fn call_step<'f>(&self, f: FnId, forms: &'f [Tree]) -> Result<Step<'f>, TermFault>
        ensures takes { Takes (setting_in self.now) (numbered_call (setting_in self.now) f.number (means_of (setting_in self.now) forms.now)) result }
        ensures below { (n : ℕ) → IfOk result (IsBelow n) }
    {
        match self.takes(f, forms.len() as u64) {
            Ok(()) => Ok(Step::Call(f, steps::books(self.alloc, forms)?)),
            Err(fault) => Err(fault),
        }
    }

    fn macro_step<'f>(&self, found: Macro, forms: &'f [Tree]) -> Result<Step<'f>, TermFault>
        ensures takes { Takes (setting_in self.now) (macro_form (setting_in self.now) found (parts_in (setting_in self.now) forms.now)) result }
        ensures below { IfOk result (IsBelow (weight forms.now)) }
    {
        match found {
            Macro::And => steps::and_step(forms),
            Macro::Or => steps::or_step(forms),
            Macro::Cond => cond_step(forms),
            Macro::Case => self.case_step(forms),
            Macro::Let => self.let_step(forms),
            Macro::LetStar => self.let_star_step(forms),
            Macro::List => steps::list_step(self.alloc, forms),
            Macro::ListStar => steps::list_star_step(self.alloc, forms),
            Macro::Plus => steps::sum_step(self.alloc, Prim::BinaryPlus, 0, forms),
            Macro::Times => steps::sum_step(self.alloc, Prim::BinaryTimes, 1, forms),
            Macro::Minus => arithmetic::minus_step(self.alloc, forms),
            Macro::OneMore => arithmetic::one_more_step(self.alloc, forms),
            Macro::OneLess => arithmetic::one_less_step(self.alloc, forms),
            Macro::AtMost => arithmetic::at_most_step(self.alloc, forms),
            Macro::Above => arithmetic::above_step(self.alloc, forms),
            Macro::AtLeast => arithmetic::at_least_step(self.alloc, forms),
            Macro::Unequal => arithmetic::unequal_step(self.alloc, forms),
            Macro::Append => self.append_step(forms),
            Macro::Logand => steps::bitwise_step(self.alloc, Prim::BinaryLogand, -1, forms),
            Macro::Logior => steps::bitwise_step(self.alloc, Prim::BinaryLogior, 0, forms),
            Macro::Logxor => steps::bitwise_step(self.alloc, Prim::BinaryLogxor, 0, forms),
            Macro::Member => self.member_step(forms),
            Macro::First => steps::path_call(self.alloc, b"A", forms),
            Macro::Second => steps::path_call(self.alloc, b"AD", forms),
            Macro::Third => steps::path_call(self.alloc, b"ADD", forms),
            Macro::Fourth => steps::path_call(self.alloc, b"ADDD", forms),
            Macro::Fifth => steps::path_call(self.alloc, b"ADDDD", forms),
            Macro::Rest => steps::path_call(self.alloc, b"D", forms),
            Macro::The => steps::the_step(forms),
            Macro::Mbe => self.mbe_step(forms),
        }
    }

    /// `(append ..)`
    fn append_step<'f>(&self, forms: &'f [Tree]) -> Result<Step<'f>, TermFault>
        ensures takes { Takes (setting_in self.now) (nested_or (literal nil) (append_call (setting_in self.now)) (means_of (setting_in self.now) forms.now)) result }
        ensures below { IfOk result (IsBelow (weight forms.now)) }
    {
        match forms {
            [] => Ok(Step::Constant(Tree::nil())),
            [only] => Ok(Step::Same(only)),
            [rest @ .., first] => {
                let both = steps::two(self.alloc, Form::Book(first), Form::Append(rest))?;
                match self.takes_two(BINARY_APPEND) {
                    Ok(()) => Ok(Step::Call(BINARY_APPEND, both)),
                    Err(fault) => Err(fault),
                }
            }
        }
    }

    /// `(member a b)`
    fn member_step<'f>(&self, forms: &'f [Tree]) -> Result<Step<'f>, TermFault>
        ensures takes { Takes (setting_in self.now) (member_form (setting_in self.now) (parts_in (setting_in self.now) forms.now)) result }
        ensures below { (n : ℕ) → IfOk result (IsBelow n) }
    {
        match forms {
            [b, a] => {
                let both = steps::two(self.alloc, Form::Book(a), Form::Book(b))?;
                match self.takes_two(MEMBER_EQUAL) {
                    Ok(()) => Ok(Step::Call(MEMBER_EQUAL, both)),
                    Err(fault) => Err(fault),
                }
            }
            [more @ .., _, _] => Err(self.option_fault(more)),
            _ => Err(TermFault::WrongCount),
        }
    }

    /// The fault of a `member` with these arguments more.
    fn option_fault(&self, more: &[Tree]) -> TermFault
        ensures { result ≡ option_fault (setting_in self.now) (parts_in (setting_in self.now) more.now) }
    {
        match more {
            [.., option] => {
                if self.is_keyword_object(option) {
                    TermFault::BadUse
                } else {
                    TermFault::WrongCount
                }
            }
            [] => TermFault::WrongCount,
        }
    }

    /// `(mbe :logic a :exec b)`
    fn mbe_step<'f>(&self, forms: &'f [Tree]) -> Result<Step<'f>, TermFault>
        ensures takes { Takes (setting_in self.now) (mbe_form (setting_in self.now) (parts_in (setting_in self.now) forms.now)) result }
        ensures below { IfOk result (IsBelow (weight forms.now)) }
    {
        match forms {
            [_, exec, a, logic] => {
                if self.spells(b":LOGIC", logic) && self.spells(b":EXEC", exec) {
                    Ok(Step::Same(a))
                } else {
                    Err(TermFault::BadUse)
                }
            }
            _ => Err(TermFault::WrongCount),
        }
    }

    /// One step of a form that is none of its own parts.
    pub(crate) fn step<'f>(&'f self, form: Form<'f>) -> Result<Step<'f>, TermFault>
        ensures takes { Takes (setting_in self.now) (form_means (setting_in self.now) form.entry) result }
        ensures other { IfOk result (IsBelow 0) }
    {
        let mut next = self.first_step(form)?;
        while let Step::Same(part) = next {
            next = self.book_step(part)?;
        }
        Ok(next)
    }

    fn first_step<'f>(&'f self, form: Form<'f>) -> Result<Step<'f>, TermFault>
        ensures { Takes (setting_in self.now) (form_means (setting_in self.now) form.entry) result }
    {
        match form {
            Form::Book(form) => self.book_step(form),
            Form::Quoted(object) => Ok(Step::Constant(object.copy(self.alloc)?)),
            Form::Number(number) => Ok(Step::Constant(Tree::int(number))),
            Form::Nil => Ok(Step::Constant(Tree::nil())),
            Form::Symbol(name) => Ok(Step::Symbol(name)),
            Form::And(forms) => steps::and_step(forms),
            Form::Or(forms) => steps::or_step(forms),
            Form::Cond(clauses) => cond_step(clauses),
            Form::List(forms) => steps::list_step(self.alloc, forms),
            Form::Nested(prim, forms) => steps::nested_step(self.alloc, prim, forms),
            Form::Append(forms) => self.append_step(forms),
            Form::Choices(clauses) => self.choices_step(clauses),
            Form::Test(key) => self.test_step(key),
            Form::Bindings(bindings, body) => self.bindings_step(bindings, body),
            Form::Path(letters, form) => steps::path_step(self.alloc, letters, form),
            Form::Unary(prim, a) => steps::unary(self.alloc, prim, Form::Book(a)),
            Form::Binary(prim, a, b) => {
                steps::binary(self.alloc, prim, Form::Book(a), Form::Book(b))
            }
            Form::LessOne => steps::unary(self.alloc, Prim::UnaryMinus, Form::Number(1)),
        }
    }
}
