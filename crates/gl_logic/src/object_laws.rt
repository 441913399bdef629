//! Laws of objects. Each is the contract of a function that does nothing.

ghost use Rattle.std.specs.Prelude.{◌≡◌, ◌≢◌, ◌↔◌, List};
ghost use Rattle.std.specs.Bool.{Decides};
ghost use Rattle.std.specs.List.{Contains, AllPairs};
ghost use Rattle.gl_logic.specs.Object.{Object};
ghost use Rattle.gl_logic.specs.ObjectEq.{object_eq};
ghost use Rattle.gl_logic.specs.Different.{different};

/// The test of equality is true exactly where two objects are equal.
pub fn equality_is_decided()
    ensures { (x y : Object) → Decides (object_eq x y) (x ≡ y) }
{}

/// The different objects of a list are its objects, each once.
pub fn different_objects_are_exact()
    ensures same { (xs : List Object) (x : Object) → Contains (different object_eq xs) x ↔ Contains xs x }
    ensures once { (xs : List Object) → AllPairs (λ x y. x ≢ y) (different object_eq xs) }
{}
