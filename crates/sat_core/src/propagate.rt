//! Propagation: what the clauses give when a literal has become true.

use super::literal::Literal;
use super::search::Search;
use super::trail::{Trail, Truth};
use super::watch::Watch;
use gl_logic::NoMemory;

/// What a look at a clause gave, one of whose two watched literals has become false.
#[derive(Clone, Copy)]
enum Look {
    /// This literal of the clause is true.
    Satisfied(Literal),
    /// The clause now watches the second of these literals, and the first as before.
    Moved(Literal, Literal),
    /// All but this literal are false.
    Unit(Literal),
    /// All are false.
    Conflict,
}

/// Looks for a literal that is not false behind the two that are watched, and puts it into the second place.
#[inline]
fn replace(literals: &mut [Literal], trail: &Trail) -> Option<Literal> {
    for k in 2..literals.len() {
        let literal = literals[k];
        if trail.truth(literal) != Truth::False {
            literals[k] = literals[1];
            literals[1] = literal;
            return Some(literal);
        }
    }
    None
}

/// Looks at a clause, one of whose first two literals has become false.
#[inline]
fn inspect(literals: &mut [Literal], trail: &Trail, falsified: Literal) -> Look {
    if literals.len() < 2 {
        return Look::Satisfied(falsified);
    }
    if literals[0] == falsified {
        literals[0] = literals[1];
        literals[1] = falsified;
    }
    let first = literals[0];
    let truth = trail.truth(first);
    if truth == Truth::True {
        return Look::Satisfied(first);
    }
    if let Some(other) = replace(literals, trail) {
        return Look::Moved(first, other);
    }
    if truth == Truth::False {
        Look::Conflict
    } else {
        Look::Unit(first)
    }
}

/// Goes over the clauses of two literals, one of which has become false. The clause that is a conflict, if any.
fn imply(trail: &mut Trail, watches: &[Watch]) -> Result<Option<u32>, NoMemory> {
    for watch in watches {
        match trail.truth(watch.blocker) {
            Truth::True => {}
            Truth::Open => trail.assign(watch.blocker, Some(watch.clause))?,
            Truth::False => return Ok(Some(watch.clause)),
        }
    }
    Ok(None)
}

/// Keeps a watch, in the place behind those that were kept.
#[inline]
fn keep(list: &mut Vec<Watch>, kept: usize, watch: Watch) {
    if kept < list.len() {
        list[kept] = watch;
    }
}

impl Search {
    /// Looks at a watched clause. The blocker under which its watch stays, or none where the clause watches another literal
    /// now; and whether the clause is a conflict.
    #[inline]
    fn visit(
        &mut self,
        watch: Watch,
        falsified: Literal,
    ) -> Result<(Option<Literal>, bool), NoMemory> {
        let clause = watch.clause;
        match inspect(self.clauses.of_mut(clause), &self.trail, falsified) {
            Look::Satisfied(literal) => Ok((Some(literal), false)),
            Look::Moved(blocker, literal) => {
                self.watches.add(literal, Watch { clause, blocker })?;
                Ok((None, false))
            }
            Look::Unit(literal) => {
                self.trail.assign(literal, Some(clause))?;
                Ok((Some(literal), false))
            }
            Look::Conflict => Ok((Some(watch.blocker), true)),
        }
    }

    /// Goes over the watches of a literal that has become false, and keeps those that stay. The clause that is a conflict,
    /// if any.
    fn sweep(
        &mut self,
        list: &mut Vec<Watch>,
        falsified: Literal,
    ) -> Result<Option<u32>, NoMemory> {
        let mut kept = 0usize;
        let mut conflict = None;
        for place in 0..list.len() {
            let Some(watch) = list.get(place) else {
                break;
            };
            let watch = *watch;
            if conflict.is_some() || self.trail.truth(watch.blocker) == Truth::True {
                keep(list, kept, watch);
                kept = kept.saturating_add(1);
                continue;
            }
            let (stays, failed) = self.visit(watch, falsified)?;
            if let Some(blocker) = stays {
                let clause = watch.clause;
                keep(list, kept, Watch { clause, blocker });
                kept = kept.saturating_add(1);
            }
            if failed {
                conflict = Some(watch.clause);
            }
        }
        list.truncate(kept);
        Ok(conflict)
    }

    /// Propagates a literal that has become true. The clause that is a conflict, if any.
    fn propagate_one(&mut self, literal: Literal) -> Result<Option<u32>, NoMemory> {
        let falsified = literal.complement();
        if let Some(clause) = imply(&mut self.trail, self.pairs.of(falsified))? {
            return Ok(Some(clause));
        }
        let mut list = self.watches.take(falsified);
        let conflict = self.sweep(&mut list, falsified)?;
        self.watches.put(falsified, list);
        Ok(conflict)
    }

    /// Propagates all literals that have become true. The clause that is a conflict, if any.
    pub fn propagate(&mut self) -> Result<Option<u32>, NoMemory> {
        for _ in 0..self.variables {
            let Some(literal) = self.trail.next() else {
                return Ok(None);
            };
            self.propagations = self.propagations.saturating_add(1);
            let conflict = self.propagate_one(literal)?;
            if conflict.is_some() {
                return Ok(conflict);
            }
        }
        Ok(None)
    }
}
