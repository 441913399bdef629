//! Terms in order.

ghost use Rattle.std.specs.Prelude.{◌≡◌, ◌<◌, [], ◌∷◌, ◌++◌, length, slice_get, Some, OnOk, OnErr};
ghost use Rattle.gl_logic.specs.TermOf.{term_of};

use super::ids::NoMemory;
use super::term::Term;
use std::alloc::Global;
use std::marker::Model;

/// Terms in order. Contracts see the list of what they stand for. Inside a [`Term`] such a list is a
/// plain vector.
#[derive(Drop)]
pub struct Terms {
    items: Vec<Term>,
}

impl Model for Terms {
    ghost use Rattle.std.specs.Prelude.{List, map};
    ghost use Rattle.std.specs.Coded.{coded_list};
    ghost use Rattle.gl_logic.specs.Exp.{Exp};
    ghost use Rattle.gl_logic.specs.ExpCode.{coded_exp};

    ghost Value = { List Exp };

    ghost coded = { coded_list coded_exp };

    ghost use Rattle.gl_logic.specs.TermOf.{term_of};

    ghost view = { λ t. map term_of t.items.items };
}

impl Terms {
    /// No terms. Takes no memory.
    pub fn new(alloc: Global) -> Terms
        ensures { result ≡ [] }
    {
        Terms {
            items: Vec::new(alloc),
        }
    }

    /// Puts a term last. It is lost where memory runs out.
    pub fn push(&mut self, term: Term) -> Result<(), NoMemory>
        ensures ok { OnOk result (self.new ≡ self.old ++ term_of term ∷ []) }
        ensures err { OnErr result (self.new ≡ self.old) }
    {
        self.items.push(term)?;
        Ok(())
    }

    /// How many terms there are.
    pub fn len(&self) -> u64
        ensures { result ≡ length self.now }
    {
        self.items.len() as u64
    }

    /// The term at a place, from 0.
    pub fn at(&self, i: u64) -> &Term
        requires { i < length self.now }
        ensures { slice_get self.now i ≡ Some (term_of result.now) }
    {
        &self.items[i as usize]
    }
}
