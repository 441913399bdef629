//! What a cell keeps.

ghost use Rattle.std.specs.Prelude.{◌≡◌, ◌-◌, ◌↔◌, IsTrue, MatchOption};
ghost use Rattle.hons_arena.specs.Cells.{cons_cell, HasNewestPart, IsAtomCell};
ghost use Rattle.hons_arena.specs.Ids.{IsNumberBelow, id_numbered};

use crate::id::{Id, IdKind};
use gl_logic::TextId;

/// What a cell keeps: an atom, or the ids of a cons's two parts.
///
/// The kinds of the two ids stand side by side before their numbers, so that a cell takes 32 bytes in place of 48.
#[derive(Clone, Copy, PartialEq, Eq)]
pub enum Cell {
    Int(i128),
    Character(u8),
    Cons(IdKind, IdKind, u64, u64),
}

/// The cell of a cons.
pub fn of_parts(first: Id, rest: Id) -> Cell
    ensures { result ≡ cons_cell first rest }
{
    Cell::Cons(first.kind(), rest.kind(), first.number(), rest.number())
}

/// The ids of a cons's two parts.
pub fn parts_of_cell(cell: Cell) -> Option<(Id, Id)>
    ensures { MatchOption result (IsAtomCell cell) (λ p. cell ≡ cons_cell p.0 p.1) }
{
    match cell {
        Cell::Cons(first_kind, rest_kind, first, rest) => {
            Some((id_numbered(first_kind, first), id_numbered(rest_kind, rest)))
        }
        _ => None,
    }
}

/// The id of a kind and a number.
#[inline(always)]
fn id_numbered(kind: IdKind, number: u64) -> Id
    ensures { result ≡ id_numbered kind number }
{
    match kind {
        IdKind::Symbol => Id::Symbol(TextId { number }),
        IdKind::Text => Id::Text(TextId { number }),
        IdKind::Cell => Id::Cell(number),
    }
}

/// Whether two ids are equal.
pub fn same_id(a: Id, b: Id) -> bool
    ensures { IsTrue result ↔ (a ≡ b) }
{
    a == b
}

/// Whether two cells keep the same.
pub fn same_cell(a: Cell, b: Cell) -> bool
    ensures { IsTrue result ↔ (a ≡ b) }
{
    a == b
}

/// Whether a part of a cons is the newest of so many cells.
#[inline(always)]
pub fn has_newest_part(count: usize, cell: Cell) -> bool
    ensures { IsTrue result → HasNewestPart count cell }
{
    match cell {
        Cell::Cons(first_kind, rest_kind, first, rest) => {
            is_newest(count, first_kind, first) || is_newest(count, rest_kind, rest)
        }
        _ => false,
    }
}

/// Whether an id of this kind and number names the newest of so many cells.
#[inline(always)]
fn is_newest(count: usize, kind: IdKind, number: u64) -> bool
    ensures { IsTrue result → ¬ IsNumberBelow (count - 1) kind number }
{
    match kind {
        IdKind::Cell => number.wrapping_add(1) == count as u64,
        _ => false,
    }
}
