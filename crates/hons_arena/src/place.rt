//! Placing a whole object.

ghost use Rattle.std.specs.Prelude.{◌↔◌, IsErr};
ghost use Rattle.gl_logic.specs.Lists.{conses, IsAtom};
ghost use Rattle.hons_arena.specs.Held.{Places, HasNoRoomFor, IsWhole};
ghost use Rattle.hons_arena.specs.Ids.{object_at, IsLive};

use crate::arena::HonsArena;
use crate::id::{Full, Id};
use gl_logic::{Tree, TreeKind};

impl HonsArena {
    /// The id of a tree's object, whose cells are added where they are not held. Full exactly where the
    /// different cells that are not held are more than the free room. The cells placed before Full stay, so no
    /// cell is left then.
    pub fn place(&mut self, tree: &Tree) -> Result<Id, Full>
        ensures places { Places self.old self.new tree.now result }
        ensures full { IsErr result ↔ HasNoRoomFor self.old tree.now }
        ensures whole { IsWhole self.new }
    {
        let placed = self.put(tree);
        let is_full = self.is_full();
        prove!(placed.is_ok() || is_full);
        placed
    }

    /// Places a tree that is no cons.
    fn put_atom(&mut self, tree: &Tree) -> Result<Id, Full>
        requires { IsAtom tree.now }
        ensures { Places self.old self.new tree.now result }
    {
        match tree.kind() {
            TreeKind::Int(i) => self.int(i),
            TreeKind::Character(code) => self.character(code),
            TreeKind::Symbol(t) => Ok(self.symbol(t)),
            TreeKind::Text(t) => Ok(self.string(t)),
            TreeKind::List => unreachable!(),
        }
    }

    /// Places a tree's tail, and then its elements in front of it.
    #[cycle(put)]
    fn put(&mut self, tree: &Tree) -> Result<Id, Full>
        ensures { Places self.old self.new tree.now result }
    {
        let tail = self.put_atom(tree.tail())?;
        self.put_all(tree.elements(), tail)
    }

    /// Places elements, from the last to the first, each before what was placed so far.
    #[cycle(put)]
    fn put_all(&mut self, elements: &[Tree], tail: Id) -> Result<Id, Full>
        requires { IsLive self.old.objects tail }
        ensures { Places self.old self.new (conses elements.now (object_at self.old.objects tail)) result }
    {
        let mut rest = tail;
        for element in elements {
            let first = self.put(element)?;
            rest = self.cons(first, rest)?;
        }
        Ok(rest)
    }
}
