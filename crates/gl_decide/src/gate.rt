//! What a worker calls when it begins a piece.

/// Called once by a worker when it begins a piece. It changes no answer; tests use it.
pub trait Gate: Sync {
    /// A worker begins a piece.
    fn enter(&self, piece: u64);
}

/// A gate that does nothing.
#[derive(Clone, Copy, Debug, PartialEq, Eq)]
pub struct OpenGate;

impl Gate for OpenGate {
    fn enter(&self, _piece: u64) {}
}
