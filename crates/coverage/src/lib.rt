//! Whether a theorem's bindings cover its hypothesis.
//!
//! A binding tries a variable on the objects of a shape alone. The theorem speaks of all objects, so the
//! hypothesis must keep the variable within its shape. [`covers`] judges this by the hypothesis's conjuncts,
//! as they are written, and evaluates nothing.
//!
//! Tests: those of the crate `gl`.
#![tactic(auto)]

mod conjuncts;
mod forms;
mod free;
mod judgement;
mod literal;
mod parts;
mod rows;
mod shapes;
pub mod soundness;
mod spine;
mod subject;

pub use free::is_free;
pub use judgement::covers;
