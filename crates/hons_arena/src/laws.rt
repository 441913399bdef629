//! Laws for the layers above. Each is the contract of a function that does nothing.

ghost use Rattle.std.specs.Prelude.{◌≤◌, List, All, Contains, length};
ghost use Rattle.gl_logic.specs.Object.{Object};
ghost use Rattle.gl_logic.specs.ObjectEq.{object_eq};
ghost use Rattle.gl_logic.specs.Different.{different};
ghost use Rattle.hons_arena.specs.declared.id.Id.{Id};
ghost use Rattle.hons_arena.specs.Held.{AddsCellsOf, Enters, IsEachOnce};
ghost use Rattle.hons_arena.specs.Ids.{IsIdOf};
ghost use Rattle.hons_arena.specs.Parts.{IsCellOf};

/// Objects that are each once and all in a list are at most as many as the different objects of that list. So an
/// arena whose objects are all in a list has at most so many cells.
pub fn held_at_most_different()
    ensures { (objects all : List Object) → IsEachOnce objects → All (Contains all) objects → length objects ≤ length (different object_eq all) }
{}

/// An id stays that of its object where cells are added.
pub fn ids_stay()
    ensures { (x y : Object) (old new : List Object) (id : Id) → AddsCellsOf x old new → IsIdOf old y id → IsIdOf new y id }
{}

/// Entering a cell of an object adds cells of that object alone.
pub fn entering_adds()
    ensures { (x y : Object) (old new : List Object) → IsCellOf y x → Enters old new y → AddsCellsOf x old new }
{}

/// Adding cells of an object twice adds cells of it.
pub fn adding_goes_on()
    ensures { (x : Object) (first second third : List Object) → AddsCellsOf x first second → AddsCellsOf x second third → AddsCellsOf x first third }
{}
