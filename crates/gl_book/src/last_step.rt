//! A theorem that is kept while a book is walked over.

use gl_logic::Extent;
use shape_spec::Thm;

/// A theorem, and how much the world had at its place.
#[derive(Drop)]
pub struct Kept {
    pub thm: Thm,
    pub extent: Extent,
}

/// What the next form of a book does.
#[derive(Drop)]
pub enum Step {
    /// It is refused, which ends the book.
    Refused,
    /// It is a theorem that is not redundant.
    Theorem(Kept),
    /// It is another event.
    Other,
}
