//! The table that finds finished calls, as it grows in its room.

ghost use Rattle.std.specs.Prelude.{◌≡◌, ◌≤◌, ◌<◌, List, length, vec_capacity};
ghost use Rattle.bdd_store.specs.Inside.{AreAnswers};
ghost use Rattle.bdd_store.specs.declared.node.Node.{Node};

use super::entry::{Entry, place_of};

/// Puts blank entries behind those that are there, until they are so many, for which there is room.
fn lengthen(entries: &mut Vec<Entry>, count: usize)
    requires room { count ≤ vec_capacity entries.old }
    requires more { length entries.old.items ≤ count }
    ensures len { length entries.new.items ≡ count }
    ensures answers { (nodes : List Node) → 0 < length nodes → AreAnswers nodes entries.old.items → AreAnswers nodes entries.new.items }
    ensures capacity { vec_capacity entries.old ≤ vec_capacity entries.new }
{
    for _ in entries.len()..count {
        entries.push_reserved(Entry::blank());
    }
}

/// Makes the places of finished calls so many, for which there is room. The calls that are there go to their new places,
/// from the last to the first, so that none is written over before it is read.
pub(crate) fn widen(entries: &mut Vec<Entry>, count: usize)
    requires some { 0 < count }
    requires room { count ≤ vec_capacity entries.old }
    requires more { length entries.old.items ≤ count }
    ensures some { 0 < length entries.new.items }
    ensures answers { (nodes : List Node) → 0 < length nodes → AreAnswers nodes entries.old.items → AreAnswers nodes entries.new.items }
    ensures capacity { vec_capacity entries.old ≤ vec_capacity entries.new }
{
    let old = entries.len();
    lengthen(entries, count);
    for place in (0..old).rev() {
        let entry = entries[place];
        let new_place = place_of(count, entry.test, entry.high, entry.low);
        entries[new_place] = entry;
    }
}
