//! Decisions that ran out of nodes or clauses.

ghost use Rattle.std.specs.Prelude.{◌≡◌, ◌<◌, [], ◌++◌, ◌∷◌, OnOk, OnErr, length, slice_get, Some};
ghost use Rattle.gl_decide.specs.Stalls.{IsStallOf};
ghost use Rattle.shape_spec.specs.TheoremSeen.{theorem_seen};

use gl_logic::{NoMemory, World};
use shape_spec::Thm;
use std::alloc::Global;
use std::marker::Model;
use std::snapshot::Snapshot;

/// Why a decision ran out, with the limit.
#[derive(Clone, Copy, Debug, PartialEq, Eq)]
pub enum StallCause {
    /// The table of symbolic objects or its bit store holds as many nodes as it may.
    Nodes(u32),
    /// The searches have learned as many clauses as they may together.
    Clauses(u32),
}

/// One decision ran out of nodes or clauses. Only [`decide_theorem`](super::decide_theorem) and
/// [`certificate`](super::certificate) hand one out, and it can't be copied. When the program runs it holds the cause;
/// contracts see the theorem and the world of the decision too.
#[derive(Drop)]
pub struct Stall {
    cause: StallCause,
    thm: Snapshot<Thm>,
    world: Snapshot<World>,
}

impl Model for Stall {
    ghost use Rattle.gl_decide.specs.Stalls.{StallSeen, coded_stall};
    ghost use Rattle.shape_spec.specs.TheoremSeen.{theorem_seen};

    ghost Value = { StallSeen };

    ghost coded = { coded_stall };

    ghost view = { λ s. record { cause = s.cause; theorem = theorem_seen s.thm.value; definitions = s.world.value.definitions; constants = s.world.value.constants } };
}

impl Stall {
    /// Why the decision ran out.
    pub fn cause(&self) -> StallCause
        ensures { result ≡ self.now.cause }
    {
        self.cause
    }
}

/// The stall of a decision on a theorem in a world.
pub(crate) fn make_stall(cause: StallCause, world: &World, thm: &Thm) -> Stall
    ensures { IsStallOf world.now (theorem_seen thm.now) cause result }
{
    Stall {
        cause,
        thm: Snapshot::of(thm),
        world: Snapshot::of(world),
    }
}

/// Stalls in order.
#[derive(Drop)]
pub struct Stalls {
    items: Vec<Stall>,
}

impl Model for Stalls {
    ghost use Rattle.std.specs.Prelude.{List};
    ghost use Rattle.std.specs.Coded.{coded_list};
    ghost use Rattle.gl_decide.specs.Stalls.{StallSeen, coded_stall};

    ghost Value = { List StallSeen };

    ghost coded = { coded_list coded_stall };

    ghost view = { λ s. s.items.items };
}

impl Stalls {
    /// No stall.
    pub fn new(alloc: Global) -> Stalls
        ensures { result ≡ [] }
    {
        Stalls {
            items: Vec::new(alloc),
        }
    }

    /// Puts a stall behind the others.
    ///
    /// # Errors
    ///
    /// `NoMemory` where memory was refused; the stalls are then as before.
    pub fn push(&mut self, stall: Stall) -> Result<(), NoMemory>
        ensures ok { OnOk result (self.new ≡ self.old ++ stall ∷ []) }
        ensures err { OnErr result (self.new ≡ self.old) }
    {
        self.items.push(stall)?;
        Ok(())
    }

    /// How many there are.
    pub fn len(&self) -> u64
        ensures { result ≡ length self.now }
    {
        self.items.len() as u64
    }

    /// The stall at a place, from 0.
    pub fn at(&self, i: u64) -> &Stall
        requires { i < length self.now }
        ensures { slice_get self.now i ≡ Some result.now }
    {
        &self.items[i as usize]
    }
}
