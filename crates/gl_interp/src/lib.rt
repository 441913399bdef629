//! The interpreter of terms on symbolic objects, and symbolic inputs.
//!
//! Figures of one machine of four processors "Intel(R) Xeon(R) Processor @ 2.50GHz" beside other work, as `bench/symbolic`
//! prints them: processor time of the whole process that decides a theorem, and the nodes that are left in its store. That a
//! 32-bit population count is `logcount` takes 4 milliseconds and 9,413 nodes of decision diagrams, or 3.6 seconds and 7,299
//! nodes of a graph that is searched; that 64-bit addition commutes 6 milliseconds and 52,982 nodes, or 20 and 2,402; that a
//! 32-bit unit of eight operations meets its specification 3 milliseconds and 20,416 nodes, or 115 and 3,467. Beyond the
//! circuit of its terms a run makes the two paths of each `if` whose test is symbolic, an edge for each operation on integers
//! that tells whether the result leaves 128 bits, and the conjunction of the parts' answers for an `equal` of conses;
//! `docs/BENCHMARKS.md` has more theorems.
//!
//! Tests: those of the crate `gl`.
#![tactic(auto)]

mod calls;
mod constants;
pub mod env;
mod envs;
pub mod fault;
mod flats;
mod frame;
pub mod inputs;
pub mod interpreter;
mod results;
mod runs;
mod shapes;
mod store_calls;
mod visits;

pub use env::SymEnv;
pub use fault::GlFault;
pub use inputs::{symbolic, symbolic_over};
pub use interpreter::interp;
