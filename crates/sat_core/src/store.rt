//! The store: a graph, the book of the last decision, and how many clauses that count all decisions have learned.

ghost use Rattle.std.specs.Prelude.{◌≡◌, ◌≢◌, ◌≤◌, ◌<◌, ◌+◌, ◌&&◌, ◌↔◌, ◌∷◌, [], ℕ, Bool, true, false, not, cond, length, Option, Some, None, IsTrue, IfOk, OnErr};
ghost use Rattle.bfr_store.specs.Keeps.{Makes, MakesVariable};
ghost use Rattle.gl_logic.specs.Assignments.{value_at};

use super::decide::decide_edge;
use aig_store::Aig;
use bfr_store::{Bits, Decision, Edge, Full, Meaning};
use cnf_rup::ClauseBook;
use gl_logic::{Assignment, NoMemory};
use std::alloc::Global;
use std::marker::Model;

/// A store of and-inverter graphs whose decisions are searches, each over a book of clauses that checks what is learned.
#[derive(Drop)]
pub struct AigSat {
    alloc: Global,
    aig: Aig,
    /// How many clauses that count all decisions together may learn.
    clauses: u32,
    /// How many of these the decisions that answered have learned.
    learned: u32,
    /// The book of the last decision, until it is taken.
    book: Option<ClauseBook>,
    /// Whether the last decision was given up.
    spent: bool,
    /// The assignment that was found last.
    last: Vec<bool>,
    /// How many literals the search of the last decision propagated.
    propagations: u64,
}

impl Model for AigSat {
    ghost use Rattle.std.specs.Prelude.{◌≤◌};
    ghost use Rattle.sat_core.specs.Decisions.{SatSeen, IsSpentWell};

    ghost Value = { SatSeen };

    ghost view = { λ s. record { graph = s.aig; clauses = s.clauses; learned = s.learned; book = s.book; spent = s.spent } };

    ghost invariant = { λ s. (s.clauses ≤ 1000000000) × (s.learned ≤ s.clauses) × IsSpentWell s.spent s.clauses s.learned s.book };
}

impl AigSat {
    ghost use Rattle.aig_store.specs.declared.node.AigNode.TheVariants.{Constant};
    ghost use Rattle.aig_store.specs.Nodes.{IsLive};
    ghost use Rattle.sat_core.specs.Decisions.{IsSpentWell};

    /// A store with no variable, with room for this many nodes, whose decisions together learn at most this many clauses that
    /// count.
    pub fn new(alloc: Global, limit: u32, clauses: u32) -> Result<AigSat, NoMemory>
        requires limit { limit ≤ 1000000000 }
        requires clauses { clauses ≤ 1000000000 }
        ensures { IfOk result (λ s. s ≡ record { graph = record { nodes = Constant ∷ []; limit = limit; width = 0 }; clauses = clauses; learned = 0; book = None; spent = false }) }
    {
        Ok(AigSat {
            alloc,
            aig: Aig::new(alloc, limit)?,
            clauses,
            learned: 0,
            book: None,
            spent: false,
            last: Vec::new(alloc),
            propagations: 0,
        })
    }

    /// Whether the edge names a function of this store.
    pub fn is_live(&self, e: Edge) -> bool
        ensures { IsTrue result ↔ IsLive self.now.graph e }
    {
        self.aig.is_live(e)
    }

    /// Whether the last decision was given up. Then the decisions have learned all clauses that may count, and the last one not
    /// the empty one.
    pub fn is_spent(&self) -> bool
        ensures spent { result ≡ self.now.spent }
        ensures well { IsSpentWell self.now.spent self.now.clauses self.now.learned self.now.book }
    {
        self.spent
    }

    /// How many literals the search of the last decision propagated: took from its trail, and went through the clauses that
    /// watch them. 0 where there was no search. It is for measuring alone: no answer stands on it, and no clause speaks of it.
    pub fn propagations(&self) -> u64 {
        self.propagations
    }

    /// Hands out the book of the last decision. None exactly where no decision was made since the last taking, or the last
    /// one answered that memory was refused.
    pub fn take_book(&mut self) -> Option<ClauseBook>
        ensures book { result ≡ self.old.book }
        ensures left { self.new ≡ record self.old { book = None; spent = false } }
    {
        self.spent = false;
        self.book.take()
    }
}

/// Keeps the assignment that was found, for the next decision. Where memory is refused less of it is kept.
fn keep(last: &mut Vec<bool>, width: u32, found: &Assignment)
    requires { length found.now ≡ width }
{
    last.clear();
    for k in 0..width {
        if last.push(found.get(k)).is_err() {
            break;
        }
    }
}

impl Meaning for AigSat {
    ghost use Rattle.aig_store.specs.Nodes.{IsLive, constant_of, count_of as nodes_in, truth_of as truth_over};

    ghost live = { λ s e. IsLive s.graph e };

    ghost truth_of = { λ s e a. truth_over s.graph.nodes e a };

    ghost constant_edge = { constant_of };

    ghost spent = { λ s. s.spent };

    ghost budget_of = { λ s. s.clauses };

    ghost limit_of = { λ s. s.graph.limit };

    ghost count_of = { λ s. nodes_in s.graph };

    ghost width_of = { λ s. s.graph.width };
}

impl Bits for AigSat {
    ghost use Rattle.aig_store.specs.Nodes.{IsLive, count_of, truth_of};
    ghost use Rattle.sat_core.specs.Decisions.{IsDecided};

    fn constant(&self, b: bool) -> Edge {
        self.aig.constant(b)
    }

    fn not(&self, x: Edge) -> Edge {
        self.aig.not(x)
    }

    // As the trait says. It adds at most one node, and the book stays.
    fn var(&mut self, k: u32) -> Result<Edge, Full>
        requires { k < 4294967295 }
        ensures makes { MakesVariable ⟦<AigSat as Meaning>⟧ self.old self.new result k }
        ensures one_more { count_of self.new.graph ≤ count_of self.old.graph + 1 }
        ensures rest { self.new ≡ record self.old { graph = self.new.graph } }
    {
        self.aig.var(k)
    }

    // As the trait says. It adds at most one node, and the book stays.
    fn and(&mut self, x: Edge, y: Edge) -> Result<Edge, Full>
        requires x { IsLive self.old.graph x }
        requires y { IsLive self.old.graph y }
        ensures makes { Makes ⟦<AigSat as Meaning>⟧ self.old self.new result (λ a. truth_of self.old.graph.nodes x a && truth_of self.old.graph.nodes y a) }
        ensures one_more { count_of self.new.graph ≤ count_of self.old.graph + 1 }
        ensures rest { self.new ≡ record self.old { graph = self.new.graph } }
    {
        self.aig.and(x, y)
    }

    // As the trait says. It adds at most three nodes, and the book stays.
    fn ite(&mut self, t: Edge, x: Edge, y: Edge) -> Result<Edge, Full>
        requires t { IsLive self.old.graph t }
        requires x { IsLive self.old.graph x }
        requires y { IsLive self.old.graph y }
        ensures makes { Makes ⟦<AigSat as Meaning>⟧ self.old self.new result (λ a. cond (truth_of self.old.graph.nodes t a) (truth_of self.old.graph.nodes x a) (truth_of self.old.graph.nodes y a)) }
        ensures three_more { count_of self.new.graph ≤ count_of self.old.graph + 3 }
        ensures rest { self.new ≡ record self.old { graph = self.new.graph } }
    {
        self.aig.ite(t, x, y)
    }

    // As the trait says. The graph stays. Where it answers, the book is that of this decision, and says what the answer stands
    // on; what it learned is counted, but for slight clauses. Where memory is refused there is no book, and the count is as
    // before.
    fn decide(&mut self, e: Edge, out: &mut Assignment) -> Result<Decision, NoMemory>
        requires live { IsLive self.old.graph e }
        requires width { length out.old ≡ self.old.graph.width }
        ensures graph { self.new.graph ≡ self.old.graph }
        ensures clauses { self.new.clauses ≡ self.old.clauses }
        ensures decided { IfOk result (λ d. IsDecided self.old.learned self.new e d) }
        ensures within { self.new.learned ≤ self.new.clauses }
        ensures never { result ≡ Ok Decision.Never → (a : ℕ → Bool) → truth_of self.old.graph.nodes e a ≡ false }
        ensures sometimes { result ≡ Ok Decision.Sometimes → truth_of self.old.graph.nodes e (value_at out.new) ≡ true }
        ensures spent { IsTrue self.new.spent ↔ (result ≡ Ok Decision.Spent) }
        ensures bits { length out.new ≡ length out.old }
        ensures untouched { result ≢ Ok Decision.Sometimes → out.new ≡ out.old }
        ensures refused { OnErr result (self.new.book ≡ None) }
        ensures uncounted { OnErr result (self.new.learned ≡ self.old.learned) }
    {
        self.spent = false;
        self.propagations = 0;
        self.book = None;
        let mut left = self.clauses - self.learned;
        let (decision, book) = decide_edge(
            self.alloc,
            &mut self.aig,
            e,
            &mut left,
            &self.last,
            &mut self.propagations,
            out,
        )?;
        self.learned = self.clauses - left;
        self.book = Some(book);
        match decision {
            Decision::Never => {}
            Decision::Sometimes => keep(&mut self.last, self.aig.width(), out),
            Decision::Spent => self.spent = true,
        }
        Ok(decision)
    }

    // As the trait says, and nothing that is seen changes.
    fn value(&mut self, e: Edge, a: &Assignment) -> bool
        requires live { IsLive self.old.graph e }
        requires width { length a.now ≡ self.old.graph.width }
        ensures same { self.new ≡ self.old }
        ensures truth { result ≡ truth_of self.old.graph.nodes e (value_at a.now) }
    {
        self.aig.value(e, a)
    }

    fn count(&self) -> u32 {
        self.aig.count()
    }

    fn limit(&self) -> u32 {
        self.aig.limit()
    }

    fn width(&self) -> u32 {
        self.aig.width()
    }
}
