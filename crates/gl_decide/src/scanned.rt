//! What a scan answers.

use lisp_eval::EvalFault;
use shape_spec::Part;

/// What all inputs tell.
#[derive(Clone, Copy, Debug, PartialEq, Eq)]
pub enum Scan {
    /// None refutes. Whether some input meets the hypothesis.
    Clean(bool),
    /// The least number whose input refutes.
    Refutes(u32),
    /// A number on whose input a part has no answer; no smaller one refutes.
    Stopped(u32, Part, EvalFault),
    /// Memory was refused.
    Memory,
}
