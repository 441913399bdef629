//! Graphs whose decisions are searches, each checked clause by clause.
//!
//! An [`AigSat`] is a store of bit functions over an and-inverter graph: it has the calls of `bfr_store`'s trait `Bits`. A
//! decision begins a book with the clauses of the edge's cone (`cnf_rup`), and searches for an assignment that satisfies
//! them as MiniSat and CaDiCaL do. What it answers stands on the book and on the graph alone:
//!
//! - no assignment makes the edge true: only where the empty clause is in the book, which has checked each clause that was
//!   learned by unit propagation along its hints (RUP with LRAT's hints);
//! - an assignment makes it true: only where the graph says so of the assignment that is handed out;
//! - given up: exactly where as many clauses that count were learned as the store allows, without an answer.
//!
//! What the store allows is for all its decisions together: each begins with what those before it have left. A clause counts
//! unless it is slight: of one literal, or shown by at most two others, as resolvents are. A million slight ones are free in
//! each book; a clause that is learned anew counts once more.
//!
//! The book is there for the next call that takes it, after whatever answer.
//!
//! Before any search the assignment that was found last is tried on the graph, and those that are all false and all true.
//! The search watches two literals of each clause, with another literal of it beside each watch that spares a look where it is
//! true, and has lists of their own for clauses of two literals. A conflict is followed back to the first unique implication
//! point; literals that the others imply are left out (self-subsumption), and their reasons join the hints, which stand in the
//! order of the trail. So hints are written in analysis and never searched for. A clause that the book refuses is replaced by
//! that of the decisions, with the reasons in their order. Variables of the cone alone are decided, by activity, in a heap: a
//! whole number, to which each conflict adds more than the one before it, an eighth more while there are few, a 64th later, and
//! all are halved before one would leave its type. A conflict adds to the variables that it is followed through, and to those
//! of the reasons of the learned clause's literals, as CaDiCaL and MapleSAT do: on products of words this halves the clauses
//! that are learned. Each variable takes the value that it had last. The search begins anew where the glue of late clauses, the
//! count of their literals' levels, is a tenth above that of all, and now and then forgets half of the long clauses that it
//! learned, those of the greatest glue. The book keeps them. After as many conflicts as there are variables, and 500 at least,
//! variables of gates are resolved away: the resolvents are learned by the book as other clauses are, each by two hints, and
//! take the place of what they were made of.
//!
//! No call nests: each walk is a loop.
//!
//! A propagation is a literal that is taken from the trail, with the clauses gone through that watch its complement.
//! `bench/decisions` counts them, and times the search beside MiniSat and CaDiCaL on the same clauses; its figures, and what was
//! tried on the search and gave nothing, are in `docs/BENCHMARKS.md`, "Searches".
//!
//! Tests: the crate `store_tests`.
#![tactic(auto)]

mod analysis;
mod candidate;
mod clauses;
mod decide;
mod eliminate;
mod literal;
mod order;
mod propagate;
mod propose;
mod restarts;
mod search;
mod store;
mod trail;
mod variable_map;
mod watch;

pub use store::AigSat;
