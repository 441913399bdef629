//! The terms of forms: the recursion over their steps.

ghost use Rattle.std.specs.Prelude.{◌≡◌, ◌≤◌, ◌+◌, map, OnOk, IfOk};
ghost use Rattle.gl_logic.specs.Exp.{If, Let};
ghost use Rattle.gl_logic.specs.TermOf.{term_of, terms_of};
ghost use Rattle.gl_translate.specs.Meaning.{symbol_inside};
ghost use Rattle.gl_translate.specs.Translation.{are_in};
ghost use Rattle.gl_translate.specs.declared.form.Step.TheVariants as step;
ghost use Rattle.gl_translate.specs.Steps.{IsBelow};
ghost use Rattle.gl_translate.specs.Answers.{Gives};

use super::context::Context;
use super::fault::TermFault;
use super::form::{Form, Step};
use gl_logic::name_set::NameSet;
use gl_logic::{Names, NoMemory, Term, TextId, Tree};

/// How many forms may stand around a form.
const DEPTH: u32 = 2_000;

impl Context<'_> {
    ghost use Rattle.gl_translate.specs.Contexts.{setting_in, form_in, forms_in, step_in};

    /// The term of a form inside so many others. At most 2,000 such calls stand inside one another.
    #[cycle(translate)]
    pub(crate) fn term<'f>(
        &'f self,
        form: Form<'f>,
        around: u32,
        bound: &mut NameSet,
    ) -> Result<Term, TermFault>
        requires { around ≤ 2000 }
        ensures meant { Gives term_of (form_in self.now form.entry bound.old around) result }
        ensures bound { OnOk result (bound.new ≡ bound.old) }
    {
        if around >= DEPTH {
            return Err(TermFault::TooDeep);
        }
        let step = self.step(form)?;
        self.taken(step, around + 1, bound)
    }

    /// The term of a step whose parts stand inside so many forms.
    #[cycle(translate)]
    fn taken<'f>(
        &'f self,
        step: Step<'f>,
        around: u32,
        bound: &mut NameSet,
    ) -> Result<Term, TermFault>
        requires depth { around ≤ 2000 }
        requires other { IsBelow 0 step }
        ensures meant { Gives term_of (step_in self.now step.entry bound.old around) result }
        ensures bound { OnOk result (bound.new ≡ bound.old) }
    {
        match step {
            Step::Constant(object) => Ok(Term::Const(object)),
            Step::Symbol(name) => self.symbol(name, bound),
            Step::If(a, b, c) => self.conditional(a, b, c, around, bound),
            Step::Or(a, b) => self.either(a, b, around, bound),
            Step::Prim(prim, forms) => Ok(Term::Prim(prim, self.terms(forms, around, bound)?)),
            Step::Call(f, forms) => Ok(Term::Call(f, self.terms(forms, around, bound)?)),
            Step::Let(names, values, body) => self.binding(names, values, body, around, bound),
            Step::Same(_) => unreachable!(),
        }
    }

    /// The terms of forms.
    #[cycle(translate)]
    fn terms<'f>(
        &'f self,
        forms: Vec<Form<'f>>,
        around: u32,
        bound: &mut NameSet,
    ) -> Result<Vec<Term>, TermFault>
        requires { around ≤ 2000 }
        ensures meant { Gives (λ ts. map term_of ts.items) (forms_in self.now forms.entry.items bound.old around) result }
        ensures bound { OnOk result (bound.new ≡ bound.old) }
    {
        let mut terms = Vec::new(self.alloc);
        for form in &forms {
            terms.push(self.term(*form, around, bound)?)?;
        }
        Ok(terms)
    }

    /// `(if a b c)`
    #[cycle(translate)]
    fn conditional<'f>(
        &'f self,
        a: Form<'f>,
        b: Form<'f>,
        c: Form<'f>,
        around: u32,
        bound: &mut NameSet,
    ) -> Result<Term, TermFault>
        requires { around ≤ 2000 }
        ensures meant { Gives term_of (step_in self.now (step.If a.entry b.entry c.entry) bound.old around) result }
        ensures bound { OnOk result (bound.new ≡ bound.old) }
    {
        let test = self.term(a, around, bound)?;
        let then = self.term(b, around, bound)?;
        let otherwise = self.term(c, around, bound)?;
        Ok(self.if_term(test, then, otherwise)?)
    }

    /// `(if a a b)`. The first part is copied and not translated again, so that the work is in
    /// proportion to the term.
    #[cycle(translate)]
    fn either<'f>(
        &'f self,
        a: Form<'f>,
        b: Form<'f>,
        around: u32,
        bound: &mut NameSet,
    ) -> Result<Term, TermFault>
        requires { around ≤ 2000 }
        ensures meant { Gives term_of (step_in self.now (step.Or a.entry b.entry) bound.old around) result }
        ensures bound { OnOk result (bound.new ≡ bound.old) }
    {
        let test = self.term(a, around, bound)?;
        let then = test.copy(self.alloc)?;
        let otherwise = self.term(b, around, bound)?;
        Ok(self.if_term(test, then, otherwise)?)
    }

    /// All the values first, then the body with the names bound.
    #[cycle(translate)]
    fn binding<'f>(
        &'f self,
        names: Names,
        values: Vec<Form<'f>>,
        body: Form<'f>,
        around: u32,
        bound: &mut NameSet,
    ) -> Result<Term, TermFault>
        requires { around ≤ 2000 }
        ensures meant { Gives term_of (step_in self.now (step.Let names values.entry body.entry) bound.old around) result }
        ensures bound { OnOk result (bound.new ≡ bound.old) }
    {
        let terms = self.terms(values, around, bound)?;
        let count = bound.len();
        bound.insert_all(&names)?;
        let body = self.term(body, around, bound)?;
        bound.truncate(count);
        Ok(self.let_term(names, terms, body)?)
    }

    /// NIL, T and keywords stand for themselves, a constant for its value, a variable in scope for
    /// itself.
    fn symbol(&self, name: TextId, bound: &NameSet) -> Result<Term, TermFault>
        ensures meant { Gives term_of (symbol_inside (setting_in self.now) name.number (are_in bound.now)) result }
    {
        if self.stands_for_itself(name) {
            return Ok(Term::Const(Tree::symbol(name)));
        }
        match self.world.constant(name) {
            Some(value) => Ok(Term::Const(value.copy(self.alloc)?)),
            None => {
                if bound.contains(name) || (self.every && self.is_legal(name)) {
                    Ok(Term::Var(name))
                } else {
                    Err(TermFault::UnboundVariable)
                }
            }
        }
    }

    fn if_term(&self, test: Term, then: Term, otherwise: Term) -> Result<Term, NoMemory>
        ensures { IfOk result (λ t. term_of t ≡ If (term_of test) (term_of then) (term_of otherwise)) }
    {
        let test = Box::new(self.alloc, test)?;
        let then = Box::new(self.alloc, then)?;
        let otherwise = Box::new(self.alloc, otherwise)?;
        Ok(Term::If(test, then, otherwise))
    }

    fn let_term(&self, names: Names, terms: Vec<Term>, body: Term) -> Result<Term, NoMemory>
        ensures { IfOk result (λ t. term_of t ≡ Let names (terms_of terms.items) (term_of body)) }
    {
        let body = Box::new(self.alloc, body)?;
        Ok(Term::Let(names, terms, body))
    }
}
