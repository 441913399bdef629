//! The members of a clique, each noted with its own form.

ghost use Rattle.std.specs.Prelude.{◌≡◌, ◌<◌, ◌≤◌, ◌+◌, ℕ, Some, drop, length, slice_get, OnOk};
ghost use Rattle.gl_logic.specs.Definition.{Definition};
ghost use Rattle.gl_logic.specs.Named.{AreDifferentNames, IsFree, names_of};
ghost use Rattle.gl_logic.specs.Every.{Every};
ghost use Rattle.gl_logic.specs.WorldSeen.{definition_names};
ghost use Rattle.event_world.specs.EventWords.{behind_head};
ghost use Rattle.event_world.specs.NextState.{with_members};

use gl_logic::{FnId, NoMemory, Tree, World};
use std::alloc::Global;

/// Notes the definitions from a number on, each with its own form: those behind the head of the clique's form.
pub fn note_members(
    alloc: Global,
    world: &mut World,
    first: FnId,
    form: &Tree,
) -> Result<(), NoMemory>
    requires within { first.number ≤ length world.old.definitions }
    requires different { AreDifferentNames (definition_names (drop first.number world.old.definitions)) }
    requires free { Every (IsFree (names_of world.old.events)) (definition_names (drop first.number world.old.definitions)) }
    ensures same { world.new.definitions ≡ world.old.definitions }
    ensures ok { OnOk result (world.new ≡ with_members world.old (drop first.number world.old.definitions) (behind_head form.now)) }
{
    let elements = form.elements();
    let mut left = elements.len().saturating_sub(1);
    for number in first.number..world.count() {
        if left == 0 {
            return Ok(());
        }
        left -= 1;
        let name = world.def(FnId { number }).name;
        world.note(name, elements[left].copy(alloc)?)?;
    }
    Ok(())
}
