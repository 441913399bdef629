//! Lists of hints, one behind another in one vector.

ghost use Rattle.std.specs.Prelude.{◌≡◌, ◌<◌, ◌≤◌, ◌^◌, [], ◌∷◌, ◌++◌, ◌+◌, length, get_or, IfOk, OnOk, OnErr};
ghost use Rattle.lrat_tool.specs.Flat.{ArePlaces, cut};

use gl_logic::NoMemory;
use std::alloc::Global;
use std::marker::Model;

/// Lists of numbers of clauses, and behind the last one numbers of a list that has not ended yet. Contracts see the lists.
#[derive(Drop)]
pub(crate) struct HintLists {
    hints: Vec<u32>,
    /// Where each list begins, and where the last one ends.
    places: Vec<u32>,
}

impl Model for HintLists {
    ghost use Rattle.std.specs.Prelude.{ℕ, length};
    ghost use Rattle.lrat_tool.specs.Flat.{FlatSeen, ArePlaces, flat_seen};

    ghost Value = { FlatSeen ℕ };

    ghost view = { λ c. flat_seen c.places.items c.hints.items };

    ghost invariant = { λ c. ArePlaces c.places.items (length c.hints.items) };
}

impl HintLists {
    /// No list.
    pub(crate) fn new(alloc: Global) -> Result<HintLists, NoMemory>
        ensures { IfOk result (λ c. c ≡ record { lists = []; rest = [] }) }
    {
        let mut places = Vec::new(alloc);
        places.push(0)?;
        Ok(HintLists {
            hints: Vec::new(alloc),
            places,
        })
    }

    /// Puts the number of a clause last.
    pub(crate) fn push(&mut self, hint: u32) -> Result<(), NoMemory>
        ensures ok { OnOk result (self.new ≡ record self.old { rest = self.old.rest ++ hint ∷ [] }) }
        ensures err { OnErr result (self.new ≡ self.old) }
    {
        self.hints.push(hint)?;
        Ok(())
    }

    /// Puts numbers of clauses last.
    pub(crate) fn push_all(&mut self, hints: &[u32]) -> Result<(), NoMemory>
        ensures ok { OnOk result (self.new ≡ record self.old { rest = self.old.rest ++ hints.now }) }
        ensures err { OnErr result (self.new ≡ self.old) }
    {
        self.hints.extend_from_slice(hints)?;
        Ok(())
    }

    /// Ends a list with the numbers that stand behind the last one.
    pub(crate) fn end(&mut self) -> Result<(), NoMemory>
        ensures ok { OnOk result (self.new ≡ record { lists = self.old.lists ++ self.old.rest ∷ []; rest = [] }) }
        ensures err { OnErr result (self.new ≡ self.old) }
    {
        let Ok(place) = u32::try_from(self.hints.len()) else {
            return Err(NoMemory);
        };
        self.places.push(place)?;
        Ok(())
    }

    /// How many numbers stand before a list, from 0, or before the end; 0 where there is none of this place.
    pub(crate) fn before(&self, k: usize) -> u32 {
        match self.places.get(k) {
            Some(place) => *place,
            None => 0,
        }
    }

    /// The list at a place, from 0.
    pub(crate) fn at(&self, k: usize) -> &[u32]
        requires { k < length self.now.lists }
        ensures { result.now ≡ get_or self.now.lists k [] }
    {
        part(self.hints.as_slice(), self.places.as_slice(), k)
    }
}

/// The list of a number, by the places where they begin.
fn part<'a>(hints: &'a [u32], places: &[u32], k: usize) -> &'a [u32]
    requires places { ArePlaces places.now (length hints.now) }
    requires within { k + 1 < length places.now }
    ensures { result.now ≡ get_or (cut places.now hints.now) k [] }
{
    let begin = places[k] as usize;
    let end = places[k + 1] as usize;
    &hints[begin..end]
}
