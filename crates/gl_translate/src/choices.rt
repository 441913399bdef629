//! Steps of `cond` and `case`.

ghost use Rattle.std.specs.Prelude.{◌≡◌, ◌&&◌, ◌==◌, not, ℕ, IfOk, map, [], ◌∷◌};
ghost use Rattle.std.specs.Option.{option_map, is_some};
ghost use Rattle.gl_logic.specs.PrimValue.{is_cons};
ghost use Rattle.gl_translate.specs.Setting.{Setting};
ghost use Rattle.gl_translate.specs.Macros.{cond_form, clause_form, is_key as key_is, choice_of, choices_of};
ghost use Rattle.gl_translate.specs.Translation.{meaning, meanings};
ghost use Rattle.gl_translate.specs.Steps.{Takes, IsBelow, means_of, parts_of as parts_in, form_means, weight};

use super::context::{Context, MEMBER_EQUAL};
use super::fault::TermFault;
use super::form::{Form, Step};
use super::steps::{one, one_name, parts_of, two};
use gl_logic::wording::has_mark;
use gl_logic::{Prim, Tree, TreeKind};

/// `(cond ..)`, of these clauses.
pub(crate) fn cond_step(clauses: &[Tree]) -> Result<Step<'_>, TermFault>
    ensures takes { (s : Setting) → Takes s (cond_form (parts_in s clauses.now)) result }
    ensures below { (n : ℕ) → IfOk result (IsBelow n) }
{
    match clauses {
        [] => Ok(Step::Constant(Tree::nil())),
        [rest @ .., clause] => clause_step(clause, rest),
    }
}

/// A clause of `cond` in front of the others.
fn clause_step<'f>(clause: &'f Tree, rest: &'f [Tree]) -> Result<Step<'f>, TermFault>
    ensures takes { (s : Setting) → Takes s (clause_form (meanings s clause.now) (cond_form (parts_in s rest.now))) result }
    ensures below { (n : ℕ) → IfOk result (IsBelow n) }
{
    match parts_of(clause) {
        Some([a]) => Ok(Step::Or(Form::Book(a), Form::Cond(rest))),
        Some([b, a]) => Ok(Step::If(Form::Book(a), Form::Book(b), Form::Cond(rest))),
        _ => Err(TermFault::BadUse),
    }
}

/// Whether an object may be a key of `case`: an atom other than NIL, or a proper list. No mark stands in
/// one.
fn is_key(object: &Tree) -> bool
    ensures { result ≡ key_is object.now }
{
    if is_list(object) && parts_of(object).is_none() {
        return false;
    }
    !object.is_nil() && !has_mark(object)
}

/// The key of a clause of `case` and the form behind it.
fn choice(clause: &Tree) -> Option<(&Tree, &Tree)>
    ensures { (s : Setting) → option_map (λ c. (c.0.now, meaning s c.1.now)) result ≡ choice_of clause.now (meanings s clause.now) }
{
    match parts_of(clause) {
        Some([value, key]) if is_key(key) => Some((key, value)),
        _ => None,
    }
}

fn is_list(object: &Tree) -> bool
    ensures { result ≡ is_cons object.now }
{
    match object.kind() {
        TreeKind::List => true,
        _ => false,
    }
}

impl Context<'_> {
    ghost use Rattle.gl_translate.specs.Macros.{case_form, matches_all as all_match, key_test};
    ghost use Rattle.gl_translate.specs.Steps.{choice_forms};
    ghost use Rattle.gl_translate.specs.Contexts.{setting_in};

    /// Whether a key is T or OTHERWISE.
    fn matches_all(&self, key: &Tree) -> bool
        ensures { result ≡ all_match (setting_in self.now) key.now }
    {
        self.spells(b"T", key) || self.spells(b"OTHERWISE", key)
    }

    /// `(case x (k v) ..)`
    pub(crate) fn case_step<'f>(&self, forms: &'f [Tree]) -> Result<Step<'f>, TermFault>
        ensures takes { Takes (setting_in self.now) (case_form (setting_in self.now) (parts_in (setting_in self.now) forms.now)) result }
        ensures below { (n : ℕ) → IfOk result (IsBelow n) }
    {
        match forms {
            [] => Err(TermFault::WrongCount),
            [clauses @ .., x] => {
                if !self.are_choices(clauses) {
                    return Err(TermFault::BadUse);
                }
                let names = one_name(self.alloc, self.unnamed)?;
                let values = one(self.alloc, Form::Book(x))?;
                Ok(Step::Let(names, values, Form::Choices(clauses)))
            }
        }
    }

    /// Whether each clause has a key and a form, and only the last one matches all.
    fn are_choices(&self, clauses: &[Tree]) -> bool
        ensures { result ≡ is_some (choices_of (setting_in self.now) (parts_in (setting_in self.now) clauses.now)) }
    {
        for i in 0..clauses.len() {
            match choice(&clauses[i]) {
                Some((key, _)) => {
                    if self.matches_too_early(key, i) {
                        return false;
                    }
                }
                None => return false,
            }
        }
        true
    }

    /// Whether a key matches all with so many clauses behind it.
    fn matches_too_early(&self, key: &Tree, behind: usize) -> bool
        ensures { result ≡ (all_match (setting_in self.now) key.now && not (behind == 0)) }
    {
        behind > 0 && self.matches_all(key)
    }

    /// What is left of a `case`, of these clauses.
    pub(crate) fn choices_step<'f>(&self, clauses: &'f [Tree]) -> Result<Step<'f>, TermFault>
        ensures { Takes (setting_in self.now) (choice_forms (setting_in self.now) (parts_in (setting_in self.now) clauses.now)) result }
    {
        match clauses {
            [] => Ok(Step::Constant(Tree::nil())),
            [rest @ .., clause] => match choice(clause) {
                Some((key, value)) => {
                    if self.matches_all(key) {
                        Ok(Step::Same(value))
                    } else {
                        let others = Form::Choices(rest);
                        Ok(Step::If(Form::Test(key), Form::Book(value), others))
                    }
                }
                None => Err(TermFault::BadUse),
            },
        }
    }

    /// Whether the variable of a `case` matches a key: equality with an atom, membership in a list.
    pub(crate) fn test_step<'f>(&self, key: &'f Tree) -> Result<Step<'f>, TermFault>
        ensures { Takes (setting_in self.now) (key_test (setting_in self.now) key.now) result }
    {
        let variable = Form::Symbol(self.unnamed);
        let both = two(self.alloc, variable, Form::Quoted(key))?;
        if is_list(key) {
            match self.takes_two(MEMBER_EQUAL) {
                Ok(()) => Ok(Step::Call(MEMBER_EQUAL, both)),
                Err(fault) => Err(fault),
            }
        } else {
            Ok(Step::Prim(Prim::Equal, both))
        }
    }
}
