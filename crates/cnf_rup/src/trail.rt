//! The literals that a check takes as true, in order, and a mark for each.

ghost use Rattle.std.specs.Prelude.{◌≡◌, ◌≤◌, ◌<◌, ◌+◌, ◌^◌, [], ◌∷◌, ◌++◌, false, neg_ℤ, length, IfOk, OnOk, OnErr};
ghost use Rattle.cnf_rup.specs.Shown.{is_among};
ghost use Rattle.cnf_rup.specs.Marked.{AreMarked, IsWithin, mark_of};

use gl_logic::NoMemory;
use std::alloc::Global;
use std::marker::Model;

/// The literals that are true, and a mark for each that is set where the literal is one of them. The marks are cleared by
/// the trail, so that this costs nothing in proportion to their number.
#[derive(Drop)]
pub struct Trail {
    literals: Vec<i32>,
    marks: Vec<bool>,
}

impl Model for Trail {
    ghost use Rattle.std.specs.Prelude.{◌≤◌, ◌<◌, ◌^◌, length};
    ghost use Rattle.cnf_rup.specs.Marked.{AreMarked, TrailSeen, unset_count};

    ghost Value = { TrailSeen };

    ghost view = { λ t. record { literals = t.literals.items; room = length t.marks.items; unset = unset_count t.marks.items } };

    ghost invariant = { λ t. AreMarked t.marks.items t.literals.items × (length t.marks.items < 2 ^ 32) };
}

/// The place of a literal's mark: 0, -1, 1, -2, 2 and so on.
fn mark_of(literal: i32) -> usize
    ensures { result ≡ mark_of literal }
{
    if literal >= 0 {
        2 * (literal as usize)
    } else {
        2 * ((-1 - literal) as usize) + 1
    }
}

/// Clears the marks of these literals, which are all that are set.
fn unmark(marks: &mut Vec<bool>, literals: &[i32])
    requires { AreMarked marks.old.items literals.now }
    ensures none { AreMarked marks.new.items [] }
    ensures len { length marks.new.items ≡ length marks.old.items }
{
    for literal in literals {
        marks[mark_of(*literal)] = false;
    }
}

impl Trail {
    /// No literal is true, and there is room for no variable. Takes no memory.
    pub fn new(alloc: Global) -> Trail
        ensures literals { result.literals ≡ [] }
        ensures room { result.room ≡ 0 }
    {
        Trail {
            literals: Vec::new(alloc),
            marks: Vec::new(alloc),
        }
    }

    /// How many marks there are.
    pub fn room(&self) -> usize
        ensures room { result ≡ self.now.room }
        ensures small { result < 2 ^ 32 }
    {
        self.marks.len()
    }

    /// Makes so many marks at least.
    pub fn widen(&mut self, room: usize) -> Result<(), NoMemory>
        requires { room < 2 ^ 32 }
        ensures literals { self.new.literals ≡ self.old.literals }
        ensures room { self.old.room ≤ self.new.room }
        ensures wide { OnOk result (room ≤ self.new.room) }
    {
        while self.marks.len() < room {
            self.marks.push(false)?;
        }
        Ok(())
    }

    /// Whether the literal is true.
    #[tactic(auto, using(crate::proofs::Marks::mark_within))]
    pub fn is_true(&self, literal: i32) -> bool
        requires { IsWithin self.now.room literal }
        ensures value { result ≡ is_among self.now.literals literal }
        ensures small { self.now.room < 2 ^ 32 }
    {
        self.marks[mark_of(literal)]
    }

    /// Whether the literal is false: whether its complement is true.
    pub fn is_false(&self, literal: i32) -> bool
        requires { IsWithin self.now.room literal }
        ensures { result ≡ is_among self.now.literals (neg_ℤ literal) }
    {
        // Read for what it tells of the marks: there are two for each variable.
        let _marks = &self.marks;
        self.is_true(-literal)
    }

    /// Takes a literal as true.
    #[tactic(auto, using(crate::proofs::Marks::mark_within, crate::proofs::Marks::unset_within))]
    pub fn set(&mut self, literal: i32) -> Result<(), NoMemory>
        requires { IsWithin self.old.room literal }
        ensures literals { OnOk result (self.new.literals ≡ self.old.literals ++ literal ∷ []) }
        ensures room { self.new.room ≡ self.old.room }
        ensures unset { OnOk result (is_among self.old.literals literal ≡ false → self.new.unset + 1 ≡ self.old.unset) }
        ensures within { self.new.unset ≤ self.new.room }
    {
        self.literals.push(literal)?;
        self.marks[mark_of(literal)] = true;
        Ok(())
    }

    /// Takes no literal as true.
    #[tactic(auto, using(crate::proofs::Marks::unset_within))]
    pub fn clear(&mut self)
        ensures literals { self.new.literals ≡ [] }
        ensures room { self.new.room ≡ self.old.room }
        ensures unset { self.new.unset ≤ self.new.room }
        ensures small { self.new.room < 2 ^ 32 }
    {
        unmark(&mut self.marks, &self.literals);
        self.literals.clear();
    }
}
