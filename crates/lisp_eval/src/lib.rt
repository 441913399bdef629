//! The evaluator: terms on interned objects, with memo tables.
//!
//! A [`Machine`] begins with a world and the functions whose finished calls it keeps, takes inputs, and evaluates terms. It
//! runs on a stack of frames of its own, so that no depth of definitions is too great for it. Each value is the id of an
//! object in its arena. What needs no frame takes none: small terms are evaluated at once, and an evaluation goes on past
//! each test, and into the body of each call, whose parts are found so; integers of 64 bits on the way take no cells, and a
//! term over them alone is found with no more than its variables. Where frames are needed, a visit to a variable, a constant,
//! an `if` or a primitive takes no memory, but that their stack grows to twice its room where it is full.
//!
//! The machine counts a visit to a subterm when it makes it, and opens a call of a memoized function once for the same
//! arguments. Its refusals tell the truth: Steps only where the memoized cost exceeds the limit, Cells only where the cells
//! that were held and those of the values computed are more different objects than the arena has cells, Width only where
//! some value leaves 128 bits.
//!
//! Figures of one machine, in processor seconds of the whole program less those of a book of no event, where a plain loop of
//! ten million additions in Python took 0.49: a loop of a million turns at most 0.06; `fib 80`, memoized, under 0.001; `fib 27`,
//! not memoized, with its 12.2 million visits 0.18; a fast alist of 100,000 keys, each looked up, 0.13; a list of 100,000
//! conses, built, reversed twice and compared, 0.07. `bench/evaluator` takes them, and `docs/BENCHMARKS.md` has the last.
//!
//! Tests: the crate `eval_tests`.
#![tactic(auto)]

mod applied;
mod attempt;
mod bindings;
mod calls;
mod constants;
mod direct;
mod env;
mod eval;
mod fault;
mod frame;
mod frameless;
mod halt;
mod integers;
pub mod laws;
mod machine;
mod opening;
mod primitives;
mod run;
mod steps;
mod tables;
mod turn;
mod value;
mod word_arithmetic;
mod zero;

pub use env::Env;
pub use fault::EvalFault;
pub use frame::Binding;
pub use machine::Machine;
pub use primitives::{PrimFault, primitive};
