//! What a conflict comes from: the clause that is learned, and the reasons that show it.

use super::clauses::Clauses;
use super::literal::Literal;
use super::order::Order;
use super::trail::Trail;
use gl_logic::NoMemory;
use std::alloc::Global;

/// A clause that follows by unit propagation, and what shows it: the literals of the trail whose reasons are followed, in the
/// order of the trail, and then the clause that was the conflict.
#[derive(Drop)]
pub struct Analysis {
    /// By variable, whether it is in the clause or its reason is followed.
    seen: Vec<bool>,
    /// The variables that are seen.
    marked: Vec<u32>,
    /// The places on the trail of the literals whose reasons are followed.
    places: Vec<u32>,
    /// The clause.
    literals: Vec<Literal>,
    /// Variables that are to be looked at.
    waiting: Vec<u32>,
    /// Seen variables of level 0, whose reasons are to be followed.
    base: Vec<u32>,
    /// How many seen variables of the last level are neither in the clause nor followed.
    open: usize,
    /// The levels of the clause's literals, as a set of remainders by 32.
    levels: u32,
    /// By level, the number of the last clause that had it.
    stamps: Vec<u32>,
    /// How many clauses were counted over.
    stamp: u32,
    /// By variable, whether its reason at level 0 was followed.
    used: Vec<bool>,
}

/// A literal that is true at level 0, by a clause that has others.
#[derive(Clone, Copy)]
pub struct Fixed {
    pub literal: Literal,
    pub reason: u32,
}

/// A set of one level.
#[inline]
fn set_of(level: u32) -> u32 {
    1u32.wrapping_shl(level)
}

impl Analysis {
    /// No clause.
    pub fn new(alloc: Global, variables: u32) -> Result<Analysis, NoMemory> {
        Ok(Analysis {
            seen: vec![in alloc; false; variables as usize]?,
            marked: Vec::new(alloc),
            places: Vec::new(alloc),
            literals: Vec::new(alloc),
            waiting: Vec::new(alloc),
            base: Vec::new(alloc),
            open: 0,
            levels: 0,
            stamps: vec![in alloc; 0; variables as usize + 1]?,
            stamp: 0,
            used: vec![in alloc; false; variables as usize]?,
        })
    }

    /// The clause.
    pub fn literals(&self) -> &[Literal] {
        self.literals.as_slice()
    }

    /// The places on the trail of the literals whose reasons show the clause, in order.
    pub fn places(&self) -> &[u32] {
        self.places.as_slice()
    }

    /// Whether the reason of a variable was followed at level 0.
    pub fn is_used(&self, variable: u32) -> bool {
        match self.used.get(variable as usize) {
            Some(used) => *used,
            None => false,
        }
    }

    /// Whether the conflict comes from this variable, as far as that is known.
    #[inline]
    fn is_seen(&self, variable: u32) -> bool {
        match self.seen.get(variable as usize) {
            Some(seen) => *seen,
            None => false,
        }
    }

    /// Marks a variable. Whether it had no mark.
    #[inline]
    fn mark(&mut self, variable: u32) -> Result<bool, NoMemory> {
        let index = variable as usize;
        if index >= self.seen.len() || self.seen[index] {
            return Ok(false);
        }
        self.seen[index] = true;
        self.marked.push(variable)?;
        Ok(true)
    }

    /// Takes the marks back that were set when there were more than this many.
    fn unmark(&mut self, count: usize) {
        for _ in count..self.marked.len() {
            if let Some(variable) = self.marked.pop() {
                let index = variable as usize;
                if index < self.seen.len() {
                    self.seen[index] = false;
                }
            }
        }
    }

    /// Forgets the conflict before, in the room of its lists.
    fn clear(&mut self) {
        self.unmark(0);
        self.places.clear();
        self.literals.clear();
        self.waiting.clear();
        self.base.clear();
        self.open = 0;
    }

    /// Takes in the literals of a clause that has been followed.
    fn follow(
        &mut self,
        literals: &[Literal],
        trail: &Trail,
        order: &mut Order,
    ) -> Result<(), NoMemory> {
        for literal in literals {
            let variable = literal.variable();
            if !self.mark(variable)? {
                continue;
            }
            let level = trail.fact(variable).level;
            if level == 0 {
                self.base.push(variable)?;
                continue;
            }
            order.bump(variable);
            if level == trail.level() {
                self.open = self.open.saturating_add(1);
            } else {
                self.literals.push(*literal)?;
            }
        }
        Ok(())
    }

    /// Follows reasons from the last literal of the trail on, until one literal of the last level is left: the first unique
    /// implication point. Its complement comes first in the clause. False where there is none.
    fn resolve(
        &mut self,
        conflict: u32,
        trail: &Trail,
        clauses: &Clauses,
        order: &mut Order,
    ) -> Result<bool, NoMemory> {
        self.follow(clauses.of(conflict), trail, order)?;
        for literal in trail.literals().iter().rev() {
            let variable = literal.variable();
            if !self.is_seen(variable) {
                continue;
            }
            if self.open < 2 {
                self.put_first(literal.complement())?;
                return Ok(true);
            }
            self.open -= 1;
            let fact = trail.fact(variable);
            let Some(reason) = fact.reason else {
                return Ok(false);
            };
            self.places.push(fact.place)?;
            self.follow(clauses.of(reason), trail, order)?;
        }
        Ok(false)
    }

    /// Puts a literal into the first place of the clause, and the one that is there last.
    fn put_first(&mut self, literal: Literal) -> Result<(), NoMemory> {
        self.literals.push(literal)?;
        let last = self.literals.len() - 1;
        self.literals[last] = self.literals[0];
        self.literals[0] = literal;
        Ok(())
    }

    /// Makes the variables of the reasons of the clause's literals more active: those that would be met next.
    fn bump_reasons(&self, trail: &Trail, clauses: &Clauses, order: &mut Order) {
        for literal in &self.literals {
            if let Some(reason) = trail.fact(literal.variable()).reason {
                order.bump_all(clauses.of(reason));
            }
        }
    }

    /// Looks at the reason of a variable. Whether each literal of it is seen, of level 0, or has a reason and a level of the
    /// clause, and then is to be looked at.
    fn look(&mut self, variable: u32, trail: &Trail, clauses: &Clauses) -> Result<bool, NoMemory> {
        let Some(reason) = trail.fact(variable).reason else {
            return Ok(false);
        };
        for literal in clauses.of(reason) {
            let below = literal.variable();
            let fact = trail.fact(below);
            if fact.level == 0 || self.is_seen(below) {
                continue;
            }
            if fact.reason.is_none() || self.levels & set_of(fact.level) == 0 {
                return Ok(false);
            }
            if self.mark(below)? {
                self.waiting.push(below)?;
            }
        }
        Ok(true)
    }

    /// Follows the reason of a variable whose literal is not in the clause.
    fn use_reason(
        &mut self,
        variable: u32,
        trail: &Trail,
        clauses: &Clauses,
    ) -> Result<(), NoMemory> {
        let fact = trail.fact(variable);
        self.places.push(fact.place)?;
        let Some(reason) = fact.reason else {
            return Ok(());
        };
        for literal in clauses.of(reason) {
            let below = literal.variable();
            if trail.fact(below).level == 0 && self.mark(below)? {
                self.base.push(below)?;
            }
        }
        Ok(())
    }

    /// Whether a literal of the clause is false where the others are: its reason, and the reasons of what stands in it, lead
    /// back to literals of the clause. Then these reasons are followed.
    fn is_implied(
        &mut self,
        variable: u32,
        trail: &Trail,
        clauses: &Clauses,
    ) -> Result<bool, NoMemory> {
        let count = self.marked.len();
        self.waiting.clear();
        self.waiting.push(variable)?;
        for _ in 0..=trail.len() {
            let Some(next) = self.waiting.pop() else {
                self.use_reasons(variable, count, trail, clauses)?;
                return Ok(true);
            };
            if !self.look(next, trail, clauses)? {
                break;
            }
        }
        self.unmark(count);
        Ok(false)
    }

    /// Follows the reasons of a variable and of those that were marked when there were this many marks.
    fn use_reasons(
        &mut self,
        variable: u32,
        count: usize,
        trail: &Trail,
        clauses: &Clauses,
    ) -> Result<(), NoMemory> {
        let end = self.marked.len();
        self.use_reason(variable, trail, clauses)?;
        for place in count..end {
            if let Some(below) = self.marked.get(place) {
                let below = *below;
                self.use_reason(below, trail, clauses)?;
            }
        }
        Ok(())
    }

    /// Leaves out the literals that are implied by the others (self-subsumption).
    fn minimise(&mut self, trail: &Trail, clauses: &Clauses) -> Result<(), NoMemory> {
        self.levels = 0;
        for literal in &self.literals {
            self.levels |= set_of(trail.fact(literal.variable()).level);
        }
        let mut kept = 1;
        for place in 1..self.literals.len() {
            let Some(literal) = self.literals.get(place) else {
                break;
            };
            let literal = *literal;
            if !self.is_implied(literal.variable(), trail, clauses)? {
                if kept < self.literals.len() {
                    self.literals[kept] = literal;
                }
                kept = kept.saturating_add(1);
            }
        }
        self.literals.truncate(kept);
        Ok(())
    }

    /// Follows the reasons of the seen variables of level 0, and of those below them. False where one has none.
    fn follow_base(&mut self, trail: &Trail, clauses: &Clauses) -> Result<bool, NoMemory> {
        for _ in 0..=trail.len() {
            let Some(variable) = self.base.pop() else {
                return Ok(true);
            };
            if trail.fact(variable).reason.is_none() {
                return Ok(false);
            }
            let index = variable as usize;
            if index < self.used.len() {
                self.used[index] = true;
            }
            self.use_reason(variable, trail, clauses)?;
        }
        Ok(false)
    }

    /// The first literal's level is the last one. Puts one of the greatest level of the others second, and gives that level.
    fn put_second(&mut self, trail: &Trail) -> u32 {
        let mut best = 1;
        let mut level = 0;
        for place in 1..self.literals.len() {
            let other = trail.fact(self.literals[place].variable()).level;
            if other > level {
                best = place;
                level = other;
            }
        }
        if 1 < best && best < self.literals.len() {
            let literal = self.literals[best];
            self.literals[best] = self.literals[1];
            self.literals[1] = literal;
        }
        level
    }

    /// Finds the clause of the first unique implication point, without the literals that the others imply. The level at
    /// which it gives its first literal; none where the trail is not as a search leaves it.
    pub fn find(
        &mut self,
        conflict: u32,
        trail: &Trail,
        clauses: &Clauses,
        order: &mut Order,
    ) -> Result<Option<u32>, NoMemory> {
        self.clear();
        if trail.level() == 0 {
            self.follow(clauses.of(conflict), trail, order)?;
        } else if self.resolve(conflict, trail, clauses, order)? {
            self.bump_reasons(trail, clauses, order);
            self.minimise(trail, clauses)?;
        } else {
            return Ok(None);
        }
        if !self.follow_base(trail, clauses)? {
            return Ok(None);
        }
        self.places.sort_unstable();
        Ok(Some(self.put_second(trail)))
    }

    /// Makes the unit clause of a literal of level 0, which its reason shows with those of its other literals. False where one
    /// has no reason.
    pub fn blame_reason(
        &mut self,
        fixed: Fixed,
        trail: &Trail,
        clauses: &Clauses,
    ) -> Result<bool, NoMemory> {
        self.clear();
        let _first = self.mark(fixed.literal.variable())?;
        self.literals.push(fixed.literal)?;
        for literal in clauses.of(fixed.reason) {
            let variable = literal.variable();
            if self.mark(variable)? {
                self.base.push(variable)?;
            }
        }
        if !self.follow_base(trail, clauses)? {
            return Ok(false);
        }
        self.places.sort_unstable();
        Ok(true)
    }

    /// Makes the clause of the complements of the decisions, the last one first, which all reasons of the trail show.
    pub fn blame_decisions(&mut self, trail: &Trail) -> Result<u32, NoMemory> {
        self.clear();
        for literal in trail.literals().iter().rev() {
            if trail.fact(literal.variable()).reason.is_none() {
                self.literals.push(literal.complement())?;
            }
        }
        for literal in trail.literals() {
            let fact = trail.fact(literal.variable());
            if fact.reason.is_some() {
                self.places.push(fact.place)?;
            }
        }
        Ok(self.put_second(trail))
    }

    /// How many levels the literals of the clause have.
    pub fn glue(&mut self, trail: &Trail) -> u32 {
        self.stamp = self.stamp.wrapping_add(1);
        let mut count = 0u32;
        for literal in &self.literals {
            let level = trail.fact(literal.variable()).level as usize;
            if level < self.stamps.len() && self.stamps[level] != self.stamp {
                self.stamps[level] = self.stamp;
                count = count.saturating_add(1);
            }
        }
        count
    }
}
