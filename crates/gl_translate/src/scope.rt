//! What a form's symbols may mean.

use super::own_definitions::Owns;
use gl_logic::Names;

/// What a form's symbols may mean beside the world's definitions and constants.
#[derive(Drop)]
pub struct Scope {
    /// The variables in scope.
    pub vars: Names,
    /// Whether every legal variable is in scope, as in a theorem.
    pub every: bool,
    /// The definitions that are being made, whose numbers stand behind the world's.
    pub own: Owns,
}
