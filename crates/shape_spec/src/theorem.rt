//! Theorems as they are decided.

use super::binding_list::Bindings;
use super::fn_set::FnSet;
use gl_logic::{Term, TextId};

/// How a theorem is decided: by binary decision diagrams, by satisfiability, or by diagrams with its conclusion run on inputs
/// that meet the hypothesis alone.
#[derive(Clone, Copy, Debug, PartialEq, Eq)]
pub enum Mode {
    Bdd,
    Sat,
    Param,
}

/// A part of a theorem.
#[derive(Clone, Copy, Debug, PartialEq, Eq)]
pub enum Part {
    Hyp,
    Concl,
}

/// A theorem of a book: where the hypothesis is not NIL, the conclusion is not NIL.
#[derive(Drop)]
pub struct Thm {
    pub name: TextId,
    pub hyp: Term,
    pub concl: Term,
    pub bindings: Bindings,
    /// How many definitions may be opened inside one another in the hypothesis.
    pub hyp_clk: u32,
    /// And in the conclusion.
    pub concl_clk: u32,
    pub mode: Mode,
    /// The functions whose calls are kept.
    pub memoized: FnSet,
}
