//! Variables by their ranks.

ghost use Rattle.std.specs.Prelude.{◌≡◌, ◌≤ℤ◌, ◌+◌, ℕ, pos, List, [], IfOk};
ghost use Rattle.sexp_print.specs.Printed.{BeginsWith};
ghost use Rattle.lrat_tool.specs.Ranks.{AreRanked, rank_from, ranked};

use gl_logic::NoMemory;
use indexmap::IndexSet;
use std::alloc::Global;
use std::marker::Model;

/// The rank of the variable at a place from 0.
fn rank_at(place: usize) -> Result<i32, NoMemory>
    ensures rank { IfOk result (λ r. r ≡ pos (place + 1)) }
    ensures above { IfOk result (λ r. pos 0 ≤ℤ r) }
{
    match i32::try_from(place) {
        Ok(place) if place < i32::MAX => Ok(place + 1),
        _ => Err(NoMemory),
    }
}

/// Different variables in the order of their coming. The rank of one is its place, from 1. Contracts see the list.
#[derive(Drop)]
pub(crate) struct Ranks {
    variables: IndexSet<u32>,
}

impl Model for Ranks {
    ghost use Rattle.std.specs.Prelude.{List, ℕ};

    ghost Value = { List ℕ };

    ghost view = { λ r. r.variables.keys };
}

impl Ranks {
    /// No variable.
    pub(crate) fn new(alloc: Global) -> Ranks
        ensures { result ≡ [] }
    {
        Ranks {
            variables: IndexSet::new(alloc),
        }
    }

    /// The rank of a variable, which is put last where it is new.
    fn rank(&mut self, variable: u32) -> Result<i32, NoMemory>
        ensures rank { (all : List ℕ) → BeginsWith self.new all → IfOk result (λ r. r ≡ pos (rank_from 1 all variable)) }
        ensures above { IfOk result (λ r. pos 0 ≤ℤ r) }
        ensures grows { BeginsWith self.old self.new }
    {
        let (place, _) = self.variables.insert_full(variable)?;
        rank_at(place)
    }

    /// The literal of the rank of this one's variable.
    fn literal(&mut self, literal: i32) -> Result<i32, NoMemory>
        ensures ranked { (all : List ℕ) → BeginsWith self.new all → IfOk result (λ l. l ≡ ranked all literal) }
        ensures grows { BeginsWith self.old self.new }
    {
        if literal == 0 {
            return Ok(0);
        }
        let rank = self.rank(literal.unsigned_abs())?;
        Ok(if literal < 0 { -rank } else { rank })
    }

    /// The literals of the ranks of these ones' variables.
    pub(crate) fn literals(&mut self, alloc: Global, literals: &[i32]) -> Result<Vec<i32>, NoMemory>
        ensures ranked { IfOk result (λ v. AreRanked self.new literals.now v.items) }
        ensures grows { BeginsWith self.old self.new }
    {
        let mut ranked = Vec::with_capacity(alloc, literals.len())?;
        for literal in literals {
            ranked.push(self.literal(*literal)?)?;
        }
        Ok(ranked)
    }
}
