ghost use Rattle.std.specs.Prelude.{◌≡◌, ◌≤◌, ◌<◌, ◌↔◌, ℕ, Bool, true, is_ok, List, [], Option, length, take, Some, IfOk, IfSome, OnOk, IsTrue};
ghost use Rattle.gl_base.specs.Outside.{HasCause, Takes};

use crate::failed::Failed;

/// Named texts of the outside, of which one at a time is open for reading.
///
/// A shelf may tell its bytes, as one in memory does, or tell nothing, as one of real files does: what is said of
/// bytes is said where they are told.
pub trait Shelf {
    /// The texts that may be opened, by their names. Who hands out a shelf says here what it is for: a function that is
    /// generic over shelves can open a text only where its own contract asks for that.
    ghost may_open: { List ℕ → Type 0 };

    /// The bytes of the text with this name, where told.
    ghost holds: { Self → List ℕ → Option (List ℕ) };

    /// The bytes of the open text that are not read yet, where told.
    ghost rest: { Self → Option (List ℕ) };

    /// Whether a text is open: so from an `open` that succeeded to the next `open`.
    ghost is_open: { Self → Bool };

    /// How many calls have failed. The count rises where a call fails and only there, and stands still at the end of
    /// its type.
    ghost faults: { Self → ℕ };

    /// Opens the text with this name, at its first byte, in place of the one that was open.
    fn open(&mut self, name: &str) -> Result<(), Failed>
        requires { may_open name.now }
        ensures rest { OnOk result (IfSome (holds self.old name.now) (λ bytes. rest self.new ≡ Some bytes)) }
        ensures open { is_open self.new ≡ is_ok result }
        ensures kept { (other : List ℕ) → holds self.new other ≡ holds self.old other }
        ensures cause { HasCause (faults self.old) (faults self.new) result };

    /// Reads the next bytes of the open text into the front of `buf`, and tells how many: 0 is the text's end.
    fn read(&mut self, buf: &mut [u8]) -> Result<usize, Failed>
        requires open { is_open self.old ≡ true }
        requires room { 0 < length buf.old }
        ensures within { IfOk result (λ n. n ≤ length buf.new) }
        ensures bytes { IfOk result (λ n. Takes (rest self.old) (rest self.new) (take n buf.new)) }
        ensures end { IfOk result (λ n. IfSome (rest self.old) (λ left. (n ≡ 0) ↔ (left ≡ []))) }
        ensures open { is_open self.new ≡ true }
        ensures kept { (other : List ℕ) → holds self.new other ≡ holds self.old other }
        ensures cause { HasCause (faults self.old) (faults self.new) result };
}
