//! Stores and clauses, with ample memory.

mod clauses;
mod diagrams;
mod edge_lists;
mod gates;
mod graphs;
mod parameters;
mod searches;
