//! Shapes of forms.

ghost use Rattle.std.specs.Prelude.{◌≡◌, ◌<◌, ◌≤◌, ◌-◌, ◌+◌, true, false, length, drop, get_or, reverse, if◌then◌else◌, Some, None};
ghost use Rattle.std.specs.List.{list_all};
ghost use Rattle.std.specs.Option.{option_map};
ghost use Rattle.gl_logic.specs.Object.{nil};
ghost use Rattle.gl_logic.specs.Lists.{conses, IsAtom};
ghost use Rattle.shape_spec.specs.ShapeSeen.{Integer, Boolean, Constant};
ghost use Rattle.shape_spec.specs.ShapeOf.{shape_of};
ghost use Rattle.shape_spec.specs.Indices.{indices_in};
ghost use Rattle.shape_spec.specs.Heads.{head_of as head_in, is_plain};
ghost use Rattle.shape_spec.specs.ShapeMeant.{index_meant, indices_meant, test_meant, atom_meant, shape_meant, choice_meant, comma_of, call_of, boolean_call, integer_call};
ghost use Rattle.gl_logic.specs.Wording.{elements as elements_in, has_mark as mark_in};
ghost use Rattle.shape_spec.specs.Gives.{Gives, fits, taken, small, shape_left, before_meant};

use super::fault::BindFault;
use super::index_form::{boolean, index_of, indices_of, integer, natural_of, progression};
use super::shape::Shape;
use super::trees::listed_tree;
use super::words::{Head, head_of};
use gl_logic::wording::{has_mark, have_marks, is_mark, parts_of, spells};
use gl_logic::{Texts, Tree, TreeKind};
use std::alloc::Global;

/// Where a shape stands: whether in a backquote, in which a comma may stand.
#[derive(Clone, Copy)]
pub(crate) struct Setting<'a> {
    pub(crate) alloc: Global,
    pub(crate) texts: &'a Texts,
    pub(crate) quasi: bool,
}

impl Setting<'_> {
    /// The shape of a form, of which so many indices may be used, and how many are left.
    ///
    /// It recurses into parentheses, of which 1,000 stand inside one another at most, and into the second
    /// part of a choice, which has used an index. It goes along a list without recursion.
    #[cycle(shape)]
    pub(crate) fn shape(&self, form: &Tree, left: u32) -> Result<(Shape, u32), BindFault>
        ensures { Gives shape_left result (taken left (shape_meant self.now.texts.now self.now.quasi form.now)) }
    {
        self.listed(form.elements(), form.tail(), left)
    }

    /// The same of a list by its elements from the last to the first, and what stands behind them.
    #[cycle(shape)]
    fn listed(&self, elements: &[Tree], tail: &Tree, left: u32) -> Result<(Shape, u32), BindFault>
        requires { IsAtom tail.now }
        ensures { Gives shape_left result (taken left (shape_meant self.now.texts.now self.now.quasi (conses elements.now tail.now))) }
    {
        let place = self.plain_from(elements);
        let (base, left) = self.base(&elements[..place], tail, left)?;
        if place == elements.len() {
            return Ok((base, left));
        }
        let boxed = Box::new(self.alloc, base)?;
        self.before(&elements[place..], boxed, left)
    }

    /// How many elements are left at the end of a list from the first one on that is not plain.
    fn plain_from(&self, elements: &[Tree]) -> usize
        ensures within { result ≤ length elements.now }
        ensures plain { list_all (λ x. is_plain (head_in self.now.texts.now x)) (drop result elements.now) ≡ true }
        ensures headed { 0 < result → is_plain (head_in self.now.texts.now (get_or elements.now (result - 1) nil)) ≡ false }
    {
        let mut place = elements.len();
        while place > 0 {
            if head_of(self.texts, &elements[place - 1]) != Head::Plain {
                return place;
            }
            place -= 1;
        }
        place
    }

    /// The shape of a list that is empty or whose first element is not plain.
    #[cycle(shape)]
    fn base(&self, elements: &[Tree], tail: &Tree, left: u32) -> Result<(Shape, u32), BindFault>
        requires tail { IsAtom tail.now }
        requires headed { 0 < length elements.now → is_plain (head_in self.now.texts.now (get_or elements.now (length elements.now - 1) nil)) ≡ false }
        ensures { Gives shape_left result (taken left (shape_meant self.now.texts.now self.now.quasi (conses elements.now tail.now))) }
    {
        match elements {
            [] => Ok((self.atom(tail)?, left)),
            [rest @ .., head] => match head_of(self.texts, head) {
                Head::Boolean => self.boolean_form(rest, tail, left),
                Head::Integer => self.integer_form(rest, tail, left),
                Head::Choice => self.choice(rest, tail, left),
                Head::Concrete => Ok((self.concrete(rest, tail)?, left)),
                Head::Comma => self.comma(rest, tail, left),
                Head::Reserved => Err(BindFault::Bad),
                Head::Backquote => Err(BindFault::Bad),
                Head::Plain => Err(BindFault::Bad),
            },
        }
    }

    /// An atom but a mark stands for itself.
    fn atom(&self, tail: &Tree) -> Result<Shape, BindFault>
        requires { IsAtom tail.now }
        ensures { Gives shape_of result (atom_meant tail.now) }
    {
        match tail.kind() {
            TreeKind::Symbol(name) => {
                if is_mark(name) {
                    return Err(BindFault::Bad);
                }
            }
            _ => {}
        }
        Ok(Shape::constant(tail.copy(self.alloc)?))
    }

    /// `(:g-boolean . i)`, by what stands behind the keyword.
    fn boolean_form(&self, rest: &[Tree], tail: &Tree, left: u32) -> Result<(Shape, u32), BindFault>
        ensures { Gives shape_left result (taken left (option_map Boolean (index_meant (conses rest.now tail.now)))) }
    {
        if !rest.is_empty() {
            return Err(BindFault::Bad);
        }
        boolean(index_of(tail)?, left)
    }

    /// `(:g-integer i ..)`, by what stands behind the keyword.
    fn integer_form(&self, rest: &[Tree], tail: &Tree, left: u32) -> Result<(Shape, u32), BindFault>
        requires { IsAtom tail.now }
        ensures { Gives shape_left result (taken left (option_map Integer (indices_meant (conses rest.now tail.now)))) }
    {
        if !tail.is_nil() {
            return Err(BindFault::Bad);
        }
        integer(indices_of(self.alloc, rest)?, left)
    }

    /// `(:g-ite (:g-boolean . i) x . y)`, by what stands behind the keyword.
    #[cycle(shape)]
    fn choice(&self, rest: &[Tree], tail: &Tree, left: u32) -> Result<(Shape, u32), BindFault>
        requires { IsAtom tail.now }
        ensures { Gives shape_left result (taken left (choice_meant self.now.texts.now self.now.quasi (conses rest.now tail.now))) }
    {
        let [others @ .., first, test] = rest else {
            return Err(BindFault::Bad);
        };
        let index = self.tested(test)?;
        if left == 0 {
            return Err(BindFault::Bad);
        }
        let (second, left) = self.listed(others, tail, left - 1)?;
        let boxed = Box::new(self.alloc, second)?;
        let (first, left) = self.shape(first, left)?;
        Ok((Shape::choice(self.alloc, index, first, boxed)?, left))
    }

    /// The index of `(:g-boolean . i)`.
    fn tested(&self, test: &Tree) -> Result<u32, BindFault>
        ensures { Gives (λ i. i) result (small (test_meant self.now.texts.now test.now)) }
    {
        match test.elements() {
            [key] => {
                if head_of(self.texts, key) == Head::Boolean {
                    index_of(test.tail())
                } else {
                    Err(BindFault::Bad)
                }
            }
            _ => Err(BindFault::Bad),
        }
    }

    /// `(:g-concrete . x)`, by what stands behind the keyword.
    fn concrete(&self, rest: &[Tree], tail: &Tree) -> Result<Shape, BindFault>
        ensures { Gives shape_of result (if mark_in (conses rest.now tail.now) then None else Some (Constant (conses rest.now tail.now))) }
    {
        if have_marks(rest) {
            return Err(BindFault::Bad);
        }
        if has_mark(tail) {
            return Err(BindFault::Bad);
        }
        Ok(Shape::constant(listed_tree(self.alloc, rest, tail)?))
    }

    /// The call behind a comma, by what stands behind the mark.
    fn comma(&self, rest: &[Tree], tail: &Tree, left: u32) -> Result<(Shape, u32), BindFault>
        requires { IsAtom tail.now }
        ensures { Gives shape_left result (taken left (if self.now.quasi then comma_of self.now.texts.now (elements_in (conses rest.now tail.now)) else None)) }
    {
        if !self.quasi {
            return Err(BindFault::Bad);
        }
        if !tail.is_nil() {
            return Err(BindFault::Bad);
        }
        if rest.len() != 1 {
            return Err(BindFault::Bad);
        }
        match parts_of(&rest[0]) {
            Some(parts) => self.call(parts, left),
            None => Err(BindFault::Bad),
        }
    }

    /// `(g-boolean i)` or `(g-int start by n)`, by the elements from the last to the first.
    fn call(&self, parts: &[Tree], left: u32) -> Result<(Shape, u32), BindFault>
        ensures { Gives shape_left result (taken left (call_of self.now.texts.now (reverse parts.now))) }
    {
        if parts.len() == 2 {
            return self.boolean_call(&parts[1], &parts[0], left);
        }
        if parts.len() == 4 {
            return self.integer_call(&parts[3], &parts[2], &parts[1], &parts[0], left);
        }
        Err(BindFault::Bad)
    }

    /// `(g-boolean i)`
    fn boolean_call(&self, name: &Tree, index: &Tree, left: u32) -> Result<(Shape, u32), BindFault>
        ensures { Gives shape_left result (taken left (boolean_call self.now.texts.now name.now index.now)) }
    {
        if !spells(self.texts, b"G-BOOLEAN", name) {
            return Err(BindFault::Bad);
        }
        boolean(index_of(index)?, left)
    }

    /// `(g-int start by n)`
    fn integer_call(
        &self,
        name: &Tree,
        start: &Tree,
        step: &Tree,
        count: &Tree,
        left: u32,
    ) -> Result<(Shape, u32), BindFault>
        ensures { Gives shape_left result (taken left (integer_call self.now.texts.now name.now start.now step.now count.now)) }
    {
        if !spells(self.texts, b"G-INT", name) {
            return Err(BindFault::Bad);
        }
        let (Some(start), Some(step), Some(count)) = (
            natural_of(start),
            natural_of(step),
            natural_of(count),
        ) else {
            return Err(BindFault::Bad);
        };
        progression(self.alloc, start, step, count, left)
    }

    /// The conses of elements, from the last to the first, onto a shape.
    #[cycle(shape)]
    fn before(
        &self,
        elements: &[Tree],
        base: Box<Shape>,
        left: u32,
    ) -> Result<(Shape, u32), BindFault>
        requires { fits (left + length (indices_in (shape_of base.value))) (shape_of base.value) ≡ true }
        ensures { Gives shape_left result (taken (left + length (indices_in (shape_of base.value))) (before_meant self.now.texts.now self.now.quasi elements.now (shape_of base.value))) }
    {
        let mut shapes = Vec::new(self.alloc);
        let mut left = left;
        for element in elements {
            let (shape, less) = self.shape(element, left)?;
            shapes.push(shape)?;
            left = less;
        }
        Ok((Shape::list(shapes, base), left))
    }
}
