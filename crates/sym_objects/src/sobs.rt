//! The table of symbolic objects.

ghost use Rattle.std.specs.Prelude.{◌≡◌, ◌≤◌, ◌<◌, ◌&&◌, ◌||◌, ◌↔◌, [], ◌∷◌, ℕ, Bool, length, map, IsTrue, IfOk, IfErr, OnErr};
ghost use Rattle.std.specs.List.{All, list_all};
ghost use Rattle.gl_logic.specs.Object.{Int, Cons, Character, boolean_object};
ghost use Rattle.gl_logic.specs.TwosComplement.{integer_of};
ghost use Rattle.sym_objects.specs.Bits.{IsTrimmed};

use super::node::Node;
use super::sob::{Sob, SobNode};
use super::table::Table;
use bfr_store::{Bits, Bitvec, Edge, Full};
use gl_logic::NoMemory;
use std::alloc::Global;
use std::marker::Model;

/// Symbolic objects over a store of bit functions. Contracts see the store, the list of nodes in the order of their making,
/// and how many nodes there may be.
///
/// Room for the nodes is reserved when a table is made, so a call that needs more than the limit allows answers `Full`,
/// and never that memory was refused, unless it has a work list of its own.
#[derive(Drop)]
pub struct Sobs<B: Bits> {
    store: B,
    table: Table,
}

impl<B: Bits> Model for Sobs<B> {
    ghost use Rattle.sym_objects.specs.Seen.{SobsSeen};

    ghost Value = { SobsSeen B };

    ghost view = { λ s. record { store = s.store; nodes = s.table.nodes; limit = s.table.limit } };

    ghost use Rattle.sym_objects.specs.Inside.{IsSound};

    ghost invariant = { λ s. IsSound B.constant_edge s.table };
}

impl<B: Bits + Drop> Sobs<B> {
    ghost use Rattle.sym_objects.specs.Seen.{IsWhole};

    /// A table with no node over this store, and with room for so many.
    pub fn new(alloc: Global, store: B, limit: u32) -> Result<Sobs<B>, NoMemory>
        ensures seen { IfOk result (λ s. s ≡ record { store = store; nodes = []; limit = limit }) }
        ensures whole { IfOk result (λ s. IsWhole B.Meaning s) }
    {
        Ok(Sobs {
            store,
            table: Table::new(alloc, limit)?,
        })
    }
}

impl<B: Bits> Sobs<B> {
    ghost use Rattle.std.specs.Borrow.{sem};
    ghost use Rattle.sym_objects.specs.Inside.{IsProper};
    ghost use Rattle.sym_objects.specs.Integers.{AreBitsOf};
    ghost use Rattle.sym_objects.specs.Lending.{LendsStore};
    ghost use Rattle.sym_objects.specs.Makes.{Makes};
    ghost use Rattle.sym_objects.specs.Nodes.{EdgesLive, IsNoBoolean, IsObjectOf, PartsBelow, SeenEdgesLive, bits_by, constant_by, kind_of, node_at, object_by};
    ghost use Rattle.sym_objects.specs.Seen.{IsEachOnce, IsLive, IsWhole, bits_in, is_constant, is_constant_edge, stands_for};

    /// How many nodes there are.
    pub fn count(&self) -> u32
        ensures count { result ≡ length self.now.nodes }
        ensures within { result ≤ self.now.limit }
        ensures each_once { IsEachOnce self.now.nodes }
    {
        self.table.len()
    }

    /// How many nodes there may be.
    pub fn limit(&self) -> u32
        ensures { result ≡ self.now.limit }
    {
        self.table.limit()
    }

    /// Lends the bit store. What is done with it leaves the table whole as far as live edges stay live in it.
    pub fn store(&mut self) -> &mut B
        ensures* lends { sem 𝓛 (LendsStore B.row B.Meaning self.entry result) }
        ensures now { result.now ≡ self.old.store }
    {
        &mut self.store
    }

    /// What a node is made of.
    pub fn node_of(&self, s: Sob) -> SobNode
        requires whole { IsWhole B.Meaning self.now }
        requires live { IsLive self.now s }
        ensures kind { kind_of (node_at self.now.nodes s) ≡ result }
        ensures edges { SeenEdgesLive (B.live self.now.store) result }
        ensures parts { PartsBelow s.number result }
        ensures symbol { IsNoBoolean result }
        ensures means { (a : ℕ → Bool) → IsObjectOf (λ e. B.truth_of self.now.store e a) (λ y. stands_for B.Meaning self.now y a) result (stands_for B.Meaning self.now s a) }
    {
        self.inner(s).kind()
    }

    /// Whether a node is constant.
    pub fn is_constant(&self, s: Sob) -> bool
        requires { IsLive self.now s }
        ensures { result ≡ is_constant B.Meaning self.now s }
    {
        self.table.mark(s.number)
    }

    /// A node as the table keeps it.
    pub(crate) fn inner(&self, s: Sob) -> Node
        requires whole { IsWhole B.Meaning self.now }
        requires live { IsLive self.now s }
        ensures node { node_at self.now.nodes s ≡ result }
        ensures edges { EdgesLive (B.live self.now.store) result }
        ensures proper { IsProper (bits_in self.now.nodes) s.number result }
        ensures means { (a : ℕ → Bool) → stands_for B.Meaning self.now s a ≡ object_by (λ e. B.truth_of self.now.store e a) (λ y. stands_for B.Meaning self.now y a) result }
        ensures constant { is_constant B.Meaning self.now s ≡ constant_by (is_constant_edge B.Meaning) (is_constant B.Meaning self.now) result }
        ensures bits { bits_in self.now.nodes s ≡ bits_by (bits_in self.now.nodes) result }
        ensures integer { 1 ≤ length (bits_in self.now.nodes s) → AreBitsOf B.Meaning self.now s (bits_in self.now.nodes s) }
    {
        self.table.node(s.number)
    }

    /// The edge of the function that is always `b`.
    pub(crate) fn constant_edge(&self, b: bool) -> Edge
        ensures edge { result ≡ B.constant_edge b }
        ensures live { B.live self.now.store result }
        ensures truth { (a : ℕ → Bool) → B.truth_of self.now.store result a ≡ b }
    {
        self.store.constant(b)
    }

    /// Whether an edge is one of the two constant ones.
    fn is_constant_edge(&self, e: Edge) -> bool
        ensures { result ≡ is_constant_edge B.Meaning e }
    {
        e.number == self.store.constant(true).number
            || e.number == self.store.constant(false).number
    }

    /// Whether a node that may be added is constant.
    fn is_constant_node(&self, node: Node) -> bool
        requires { IsProper (bits_in self.now.nodes) (length self.now.nodes) node }
        ensures { result ≡ constant_by (is_constant_edge B.Meaning) (is_constant B.Meaning self.now) node }
    {
        match node {
            Node::Boolean(e) => self.is_constant_edge(e),
            Node::Sign(e) => self.is_constant_edge(e),
            Node::Bit(e, rest) => self.is_constant_edge(e) && self.is_constant(rest),
            Node::Pair(first, rest) => self.is_constant(first) && self.is_constant(rest),
            Node::Choice(..) => false,
            _ => true,
        }
    }

    /// The node, where it is there, or a new one.
    pub(crate) fn add(&mut self, node: Node) -> Result<Sob, Full>
        requires whole { IsWhole B.Meaning self.old }
        requires edges { EdgesLive (B.live self.old.store) node }
        requires proper { IsProper (bits_in self.old.nodes) (length self.old.nodes) node }
        ensures makes { Makes B.Meaning self.old self.new result (λ a. object_by (λ e. B.truth_of self.old.store e a) (λ y. stands_for B.Meaning self.old y a) node) }
        ensures full { OnErr result (length self.new.nodes ≡ self.new.limit) }
        ensures store { self.new.store ≡ self.old.store }
        ensures node { IfOk result (λ r. node_at self.new.nodes r ≡ node) }
        ensures constant { IfOk result (λ r. is_constant B.Meaning self.new r ≡ constant_by (is_constant_edge B.Meaning) (is_constant B.Meaning self.old) node) }
        ensures bits { IfOk result (λ r. bits_in self.new.nodes r ≡ bits_by (bits_in self.old.nodes) node) }
    {
        if let Some(number) = self.table.find(node) {
            return Ok(Sob { number });
        }
        if self.table.is_full() {
            return Err(Full);
        }
        let mark = self.is_constant_node(node);
        Ok(Sob {
            number: self.table.push(node, mark),
        })
    }

    /// The constant node of a character.
    pub fn character(&mut self, code: u8) -> Result<Sob, Full>
        requires whole { IsWhole B.Meaning self.old }
        ensures makes { Makes B.Meaning self.old self.new result (λ a. Character code) }
        ensures constant { IfOk result (λ r. is_constant B.Meaning self.new r ≡ Bool.true) }
        ensures full { OnErr result (length self.new.nodes ≡ self.new.limit) }
        ensures store { self.new.store ≡ self.old.store }
    {
        self.add(Node::Character(code))
    }

    /// T where the edge is true, and NIL elsewhere. A constant node exactly where the edge is one of the two constant ones.
    pub fn boolean(&mut self, e: Edge) -> Result<Sob, Full>
        requires whole { IsWhole B.Meaning self.old }
        requires edge { B.live self.old.store e }
        ensures makes { Makes B.Meaning self.old self.new result (λ a. boolean_object (B.truth_of self.old.store e a)) }
        ensures constant { IfOk result (λ r. is_constant B.Meaning self.new r ≡ is_constant_edge B.Meaning e) }
        ensures full { OnErr result (length self.new.nodes ≡ self.new.limit) }
        ensures store { self.new.store ≡ self.old.store }
    {
        self.add(Node::Boolean(e))
    }

    /// The cons of two objects. A constant node exactly where both are constant.
    pub fn pair(&mut self, a: Sob, d: Sob) -> Result<Sob, Full>
        requires whole { IsWhole B.Meaning self.old }
        requires first { IsLive self.old a }
        requires rest { IsLive self.old d }
        ensures makes { Makes B.Meaning self.old self.new result (λ v. Cons (stands_for B.Meaning self.old a v) (stands_for B.Meaning self.old d v)) }
        ensures constant { IfOk result (λ r. is_constant B.Meaning self.new r ≡ (is_constant B.Meaning self.old a && is_constant B.Meaning self.old d)) }
        ensures full { OnErr result (length self.new.nodes ≡ self.new.limit) }
        ensures store { self.new.store ≡ self.old.store }
    {
        self.add(Node::Pair(a, d))
    }
}
