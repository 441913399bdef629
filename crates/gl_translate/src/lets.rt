//! Steps of `let` and `let*`.

ghost use Rattle.std.specs.Prelude.{◌≡◌, ℕ, ◌+◌, ◌<◌, map, reverse, IfOk, IfSome, Some, [], ◌∷◌};
ghost use Rattle.std.specs.List.{list_all};
ghost use Rattle.std.specs.Option.{option_map};
ghost use Rattle.gl_logic.specs.Lists.{size_of};
ghost use Rattle.gl_translate.specs.Translation.{meaning, meanings};
ghost use Rattle.gl_translate.specs.Steps.{Takes, IsBelow, parts_of as parts_in, bindings_of, form_means, weight};

use super::context::Context;
use super::fault::TermFault;
use super::form::{Form, Step};
use super::steps::{one, one_name, parts_of};
use gl_logic::name_set::are_different;
use gl_logic::{Names, NoMemory, TextId, Tree, TreeKind};
use std::alloc::Global;

impl Context<'_> {
    ghost use Rattle.gl_translate.specs.Macros.{let_call, let_star_call, bound_by as bound_in, all_bound, let_bound, one_after_another, body_of as body_in, is_declare as declare_is, is_declared as declared_is};
    ghost use Rattle.gl_translate.specs.Contexts.{setting_in};

    /// `(let ((v e) ..) b)`
    pub(crate) fn let_step<'f>(&self, forms: &'f [Tree]) -> Result<Step<'f>, TermFault>
        ensures takes { Takes (setting_in self.now) (let_call (setting_in self.now) (parts_in (setting_in self.now) forms.now)) result }
        ensures below { (n : ℕ) → IfOk result (IsBelow n) }
    {
        match forms {
            [] => Err(TermFault::BadUse),
            [rest @ .., bindings] => match (parts_of(bindings), self.body_of(rest)) {
                (Some(bindings), Some(body)) => self.bound_step(bindings, body),
                _ => Err(TermFault::BadUse),
            },
        }
    }

    /// A `let` of these bindings and this body.
    fn bound_step<'f>(&self, bindings: &'f [Tree], body: &'f Tree) -> Result<Step<'f>, TermFault>
        ensures takes { Takes (setting_in self.now) (let_bound (all_bound (setting_in self.now) (bindings_of (setting_in self.now) bindings.now)) (meaning (setting_in self.now) body.now)) result }
        ensures below { (n : ℕ) → IfOk result (IsBelow n) }
    {
        match self.all_bound(bindings)? {
            Some((names, values)) => {
                if are_different(self.alloc, &names)? {
                    Ok(Step::Let(names, values, Form::Book(body)))
                } else {
                    Err(TermFault::BadUse)
                }
            }
            None => Err(TermFault::BadUse),
        }
    }

    /// The names and the values of bindings; None where one is malformed.
    fn all_bound<'f>(
        &self,
        bindings: &'f [Tree],
    ) -> Result<Option<(Names, Vec<Form<'f>>)>, NoMemory>
        ensures names { IfOk result (λ o. option_map (λ p. p.0) o ≡ option_map (map (λ e. e.0)) (all_bound (setting_in self.now) (bindings_of (setting_in self.now) bindings.now))) }
        ensures values { IfOk result (λ o. option_map (λ p. map (form_means (setting_in self.now)) p.1.items) o ≡ option_map (map (λ e. e.1)) (all_bound (setting_in self.now) (bindings_of (setting_in self.now) bindings.now))) }
    {
        let mut names = Names::new(self.alloc);
        let mut values = Vec::new(self.alloc);
        let mut left = bindings.len();
        while left > 0 {
            left -= 1;
            match self.bound_by(&bindings[left]) {
                Some((name, value)) => {
                    names.push(name)?;
                    values.push(Form::Book(value))?;
                }
                None => return Ok(None),
            }
        }
        Ok(Some((names, values)))
    }

    /// The legal variable of a binding and the form of its value; None where it is malformed.
    fn bound_by<'f>(&self, binding: &'f Tree) -> Option<(TextId, &'f Tree)>
        ensures { option_map (λ b. (b.0.number, meaning (setting_in self.now) b.1.now)) result ≡ bound_in (setting_in self.now) binding.now (meanings (setting_in self.now) binding.now) }
    {
        match parts_of(binding) {
            Some([value, name]) => match name.kind() {
                TreeKind::Symbol(name) if self.is_legal(name) => Some((name, value)),
                _ => None,
            },
            _ => None,
        }
    }

    /// `(let* ((v e) ..) b)`
    pub(crate) fn let_star_step<'f>(&self, forms: &'f [Tree]) -> Result<Step<'f>, TermFault>
        ensures takes { Takes (setting_in self.now) (let_star_call (setting_in self.now) (parts_in (setting_in self.now) forms.now)) result }
        ensures below { IfOk result (IsBelow (weight forms.now)) }
    {
        match forms {
            [] => Err(TermFault::BadUse),
            [rest @ .., bindings] => match (parts_of(bindings), self.body_of(rest)) {
                (Some(bindings), Some(body)) => self.bindings_step(bindings, body),
                _ => Err(TermFault::BadUse),
            },
        }
    }

    /// A `let*` of these bindings and this body.
    pub(crate) fn bindings_step<'f>(
        &self,
        bindings: &'f [Tree],
        body: &'f Tree,
    ) -> Result<Step<'f>, TermFault>
        ensures takes { Takes (setting_in self.now) (one_after_another (setting_in self.now) (bindings_of (setting_in self.now) bindings.now) (meaning (setting_in self.now) body.now)) result }
        ensures below { IfOk result (IsBelow (size_of body.now + 1)) }
    {
        match bindings {
            [] => Ok(Step::Same(body)),
            [rest @ .., binding] => match self.bound_by(binding) {
                Some((name, value)) => {
                    let names = one_name(self.alloc, name)?;
                    let values = one(self.alloc, Form::Book(value))?;
                    Ok(Step::Let(names, values, Form::Bindings(rest, body)))
                }
                None => Err(TermFault::BadUse),
            },
        }
    }

    /// The body, which is the last form behind the bindings; None where one before it is no `declare`.
    fn body_of<'f>(&self, rest: &'f [Tree]) -> Option<&'f Tree>
        ensures body { option_map (λ b. meaning (setting_in self.now) b.now) result ≡ body_in (setting_in self.now) (parts_in (setting_in self.now) rest.now) }
        ensures within { IfSome result (λ b. size_of b.now < weight rest.now) }
    {
        match rest {
            [] => None,
            [body, declares @ ..] => {
                if self.are_declares(declares) {
                    Some(body)
                } else {
                    None
                }
            }
        }
    }

    fn are_declares(&self, forms: &[Tree]) -> bool
        ensures { result ≡ list_all (declare_is (setting_in self.now)) (reverse forms.now) }
    {
        for form in forms {
            if !self.is_declare(form) {
                return false;
            }
        }
        true
    }

    /// Whether a form is `(declare ..)` of `ignore`, `ignorable` or `type`.
    fn is_declare(&self, form: &Tree) -> bool
        ensures { result ≡ declare_is (setting_in self.now) form.now }
    {
        match parts_of(form) {
            Some([declared @ .., head]) => {
                self.spells(b"DECLARE", head) && self.are_declared(declared)
            }
            _ => false,
        }
    }

    fn are_declared(&self, forms: &[Tree]) -> bool
        ensures { result ≡ list_all (declared_is (setting_in self.now)) (reverse forms.now) }
    {
        for form in forms {
            if !self.is_declared(form) {
                return false;
            }
        }
        true
    }

    fn is_declared(&self, form: &Tree) -> bool
        ensures { result ≡ declared_is (setting_in self.now) form.now }
    {
        match parts_of(form) {
            Some([.., head]) => {
                self.spells(b"IGNORE", head)
                    || self.spells(b"IGNORABLE", head)
                    || self.spells(b"TYPE", head)
            }
            _ => false,
        }
    }
}
