//! An id as a key of a table, or as an argument of a call that is one.

ghost use Rattle.std.specs.Prelude.{◌≡◌};
ghost use Rattle.std.specs.Cmp.{partial_equiv_from_equiv};
ghost use Rattle.hons_arena.specs.HashedIds.{id_eq, id_fed, kind_number, id_equiv, id_alike};

use crate::id::{Id, IdKind};
use std::hash::{Hash, Hasher};
use std::marker::Model;

/// An id that tables find by its hash. Contracts see the id itself.
#[derive(Clone, Copy)]
pub struct HashedId {
    /// The id.
    pub id: Id,
}

impl Model for HashedId {
    ghost use Rattle.hons_arena.specs.declared.id.Id.{Id as IdSeen};

    ghost Value = { IdSeen };

    ghost view = { λ k. k.id };

    ghost inverse = { λ v. record { id = v } };
}

/// NIL, which fills the places of a call that are not used yet.
impl Default for HashedId {
    fn default() -> HashedId {
        HashedId { id: Id::default() }
    }
}

impl PartialEq for HashedId {
    ghost eq = { id_eq };

    ghost laws = { partial_equiv_from_equiv id_equiv };

    fn eq(&self, other: &HashedId) -> bool {
        self.id == other.id
    }
}

impl Eq for HashedId {
    ghost laws = { id_equiv };
}

/// The number alone is hashed: few ids of two kinds have one number, and equality tells them apart.
impl Hash for HashedId {
    ghost hash_input = { id_fed };

    ghost respects_eq = { id_alike.fed };

    fn hash<H: Hasher>(&self, state: &mut H) {
        state.write_u64(self.id.number());
    }
}

/// What stands for a kind among numbers.
pub fn kind_number(kind: IdKind) -> u8
    ensures { result ≡ kind_number kind }
{
    match kind {
        IdKind::Symbol => 0,
        IdKind::Text => 1,
        IdKind::Cell => 2,
    }
}
