//! Making a tree of an object.

ghost use Rattle.std.specs.Prelude.{◌≡◌, ◌+◌, ◌<◌, ◌≤◌, All, IfOk, IsErr, IsErrOf, length, map};
ghost use Rattle.gl_logic.specs.Lists.{IsAtom, size_of};
ghost use Rattle.gl_logic.specs.Parts.{IsLarge, car_steps};
ghost use Rattle.hons_arena.specs.Ids.{object_at, IsLive};
ghost use Rattle.hons_arena.specs.declared.tree_of.TreeFault.TheVariants.{Memory};
ghost use Rattle.hons_arena.specs.Spine.{onto, ExceedsRoom, IsSpine};

use crate::arena::HonsArena;
use crate::id::{Id, Kind};
use gl_logic::{NoMemory, Tree};
use std::alloc::{AllocFailed, Global};

/// Why an object is not made into a tree.
#[derive(Clone, Copy, Debug, PartialEq, Eq)]
pub enum TreeFault {
    /// The object is too large to print.
    Large,
    /// Memory was refused.
    Memory,
}

impl From<NoMemory> for TreeFault {
    ghost from_gives = { λ _ e. e ≡ Memory };

    fn from(_error: NoMemory) -> TreeFault {
        TreeFault::Memory
    }
}

impl<T: Drop> From<AllocFailed<T>> for TreeFault {
    ghost from_gives = { λ _ e. e ≡ Memory };

    fn from(_error: AllocFailed<T>) -> TreeFault {
        TreeFault::Memory
    }
}

/// The most conses of an object that is not too large, shared ones counted each time: a million leaves.
const MOST_CONSES: u32 = 999_999;

/// The most car steps on one path of an object that is not too large.
const MOST_CAR_STEPS: u32 = 1000;

/// The ids of a list's elements in order, and of what comes after them.
#[derive(Drop)]
struct Spine {
    cars: Vec<Id>,
    tail: Id,
}

impl HonsArena {
    /// The object of an id, made of parts of its own. Large exactly where it is too large to print, unless memory
    /// is refused first.
    ///
    /// No more conses are visited than a million, and nothing goes deeper than a thousand car steps.
    pub fn tree_of(&self, alloc: Global, id: Id) -> Result<Tree, TreeFault>
        requires { IsLive self.now.objects id }
        ensures object { IfOk result (λ t. t ≡ object_at self.now.objects id) }
        ensures large { IsErrOf result TreeFault.Large → IsLarge (object_at self.now.objects id) }
        ensures small { IsLarge (object_at self.now.objects id) → IsErr result }
    {
        let mut room = MOST_CONSES;
        self.built(alloc, id, MOST_CAR_STEPS, &mut room)
    }

    /// The object of an id, with at most so many car steps on a path and conses within the room, which falls by
    /// those that it has.
    #[cycle(built)]
    fn built(&self, alloc: Global, id: Id, steps: u32, room: &mut u32) -> Result<Tree, TreeFault>
        requires { IsLive self.now.objects id }
        ensures ok { IfOk result (λ t. (t ≡ object_at self.now.objects id) × (size_of t + room.new ≡ room.old) × (car_steps t ≤ steps)) }
        ensures large { IsErrOf result TreeFault.Large → ExceedsRoom (object_at self.now.objects id) room.old steps }
    {
        let spine = self.spine(alloc, id, room)?;
        let tail = self.atom(spine.tail);
        self.built_onto(alloc, spine.cars, tail, steps, room)
    }

    /// The objects of ids in front of a tail that is no cons.
    #[cycle(built)]
    fn built_onto(
        &self,
        alloc: Global,
        mut cars: Vec<Id>,
        tail: Tree,
        steps: u32,
        room: &mut u32,
    ) -> Result<Tree, TreeFault>
        requires live { All (IsLive self.now.objects) cars.items }
        requires atom { IsAtom tail }
        ensures ok { IfOk result (λ t. (t ≡ onto (map (object_at self.now.objects) cars.items) tail) × (size_of t + room.new ≡ room.old + length cars.items) × (car_steps t ≤ steps)) }
        ensures large { IsErrOf result TreeFault.Large → ExceedsRoom (onto (map (object_at self.now.objects) cars.items) tail) (room.old + length cars.items) steps }
    {
        let mut tree = tail;
        while let Some(car) = cars.pop() {
            if steps == 0 {
                return Err(TreeFault::Large);
            }
            let first = self.built(alloc, car, steps - 1, room)?;
            tree = Tree::pair(alloc, first, tree)?;
        }
        Ok(tree)
    }

    /// The elements and the tail of an object, whose conses the room falls by.
    fn spine(&self, alloc: Global, id: Id, room: &mut u32) -> Result<Spine, TreeFault>
        requires { IsLive self.now.objects id }
        ensures ok { IfOk result (λ s. IsSpine self.now.objects (object_at self.now.objects id) s.cars.items s.tail × (length s.cars.items + room.new ≡ room.old)) }
        ensures large { IsErrOf result TreeFault.Large → room.old < size_of (object_at self.now.objects id) }
    {
        let mut cars = Vec::new(alloc);
        let mut tail = id;
        while let Some((first, rest)) = self.parts(tail) {
            if *room == 0 {
                return Err(TreeFault::Large);
            }
            *room -= 1;
            cars.push(first)?;
            tail = rest;
        }
        Ok(Spine { cars, tail })
    }

    /// An object that is no cons.
    fn atom(&self, id: Id) -> Tree
        requires live { IsLive self.now.objects id }
        requires atom { IsAtom (object_at self.now.objects id) }
        ensures { result ≡ object_at self.now.objects id }
    {
        match self.kind(id) {
            Kind::Int(i) => Tree::int(i),
            Kind::Character(code) => Tree::character(code),
            Kind::Symbol(t) => Tree::symbol(t),
            Kind::Text(t) => Tree::string(t),
            Kind::Cons => unreachable!(),
        }
    }
}
