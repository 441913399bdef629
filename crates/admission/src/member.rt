//! The members of a clique, as their callers see them.

ghost use Rattle.std.specs.Prelude.{◌≡◌, map};
ghost use Rattle.std.specs.Option.{option_map};
ghost use Rattle.admission.specs.Signatures.{signature_of, signature_at};

use gl_logic::{Measure, Names};

/// A member's formals, and its measure.
#[derive(Drop)]
pub(crate) struct Member<'a> {
    pub(crate) formals: &'a Names,
    pub(crate) measure: Option<Measure>,
}

/// Definition f, where it is one of the members, which are numbered from `first`.
pub(crate) fn find<'a, 'b>(members: &'b [Member<'a>], first: u64, f: u64) -> Option<&'b Member<'a>>
    ensures { option_map (λ m. signature_of m.now) result ≡ signature_at first (map signature_of members.now) f }
{
    if f < first {
        return None;
    }
    members.get((f - first) as usize)
}
