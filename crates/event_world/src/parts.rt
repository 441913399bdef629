//! The elements of proper lists.

ghost use Rattle.std.specs.Prelude.{◌≡◌, [], ◌∷◌, ◌↔◌, MatchOption, IsTrue, length};
ghost use Rattle.std.specs.Option.{option_copied, option_map};
ghost use Rattle.gl_logic.specs.Wording.{elements as elements_in};
ghost use Rattle.event_world.specs.PartsOf.{is_empty as empty_is, one_of as one_meant, two_of as two_meant, three_of as three_meant, four_of as four_meant, split_last};

use gl_logic::Tree;
use std::marker::Model;

/// The elements of a proper list, or what is left of them. Contracts see them in order.
#[derive(Drop)]
pub(crate) struct Parts<'a> {
    from_last: &'a [Tree],
}

impl<'a> Model for Parts<'a> {
    ghost use Rattle.std.specs.Prelude.{List, reverse};
    ghost use Rattle.std.specs.Coded.{coded_list};
    ghost use Rattle.gl_logic.specs.Object.{Object, coded_object};

    ghost Value = { List Object };

    ghost coded = { coded_list coded_object };

    ghost view = { λ p. reverse p.from_last.now };
}

impl<'a> Parts<'a> {
    /// The elements of a proper list, and None for anything else.
    pub(crate) fn of(form: &'a Tree) -> Option<Parts<'a>>
        ensures { result ≡ elements_in form.now }
    {
        if form.tail().is_nil() {
            Some(Parts {
                from_last: form.elements(),
            })
        } else {
            None
        }
    }

    /// The same elements once more.
    pub(crate) fn again(&self) -> Parts<'a>
        ensures { result ≡ self.now }
    {
        Parts {
            from_last: self.from_last,
        }
    }

    /// The first element and what stands behind it, and None where there is none.
    pub(crate) fn first(&self) -> Option<(&'a Tree, Parts<'a>)>
        ensures { MatchOption result (self.now ≡ []) (λ p. self.now ≡ p.0.now ∷ p.1) }
    {
        match self.from_last {
            [rest @ .., first] => Some((first, Parts { from_last: rest })),
            [] => None,
        }
    }

    /// What stands before the last element, and that element; None where there is none.
    pub(crate) fn last(&self) -> Option<(Parts<'a>, &'a Tree)>
        ensures { option_map (λ p. (p.0, p.1.now)) result ≡ split_last self.now }
    {
        match self.from_last {
            [last, rest @ ..] => Some((Parts { from_last: rest }, last)),
            [] => None,
        }
    }

    /// Whether there is none.
    pub(crate) fn is_empty(&self) -> bool
        ensures { result ≡ empty_is self.now }
    {
        self.first().is_none()
    }

    /// How many there are.
    pub(crate) fn len(&self) -> usize
        ensures { result ≡ length self.now }
    {
        self.from_last.len()
    }

    /// The element of a list of one.
    pub(crate) fn one(&self) -> Option<&'a Tree>
        ensures { option_copied result ≡ one_meant self.now }
    {
        let (a, rest) = self.first()?;
        match rest.first() {
            None => Some(a),
            Some(_) => None,
        }
    }

    /// The elements of a list of two.
    pub(crate) fn two(&self) -> Option<(&'a Tree, &'a Tree)>
        ensures { option_map (λ p. (p.0.now, p.1.now)) result ≡ two_meant self.now }
    {
        let (a, rest) = self.first()?;
        let (b, rest) = rest.first()?;
        match rest.first() {
            None => Some((a, b)),
            Some(_) => None,
        }
    }

    /// The elements of a list of three.
    pub(crate) fn three(&self) -> Option<(&'a Tree, &'a Tree, &'a Tree)>
        ensures { option_map (λ p. (p.0.now, p.1.now, p.2.now)) result ≡ three_meant self.now }
    {
        let (a, rest) = self.first()?;
        let (b, rest) = rest.first()?;
        let (c, rest) = rest.first()?;
        match rest.first() {
            None => Some((a, b, c)),
            Some(_) => None,
        }
    }

    /// The elements of a list of four.
    pub(crate) fn four(&self) -> Option<(&'a Tree, &'a Tree, &'a Tree, &'a Tree)>
        ensures { option_map (λ p. (p.0.now, p.1.now, p.2.now, p.3.now)) result ≡ four_meant self.now }
    {
        let (a, rest) = self.first()?;
        let (b, c, d) = rest.three()?;
        Some((a, b, c, d))
    }
}
