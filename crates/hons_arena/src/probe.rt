//! Looking a cell up in the slot table.

ghost use Rattle.std.specs.Prelude.{◌≡◌, ◌<◌, length};
ghost use Rattle.hons_arena.specs.Cells.{IsInterned};
ghost use Rattle.hons_arena.specs.Hash.{hash_of};
ghost use Rattle.hons_arena.specs.Table.{IsTable, IsMarked};
ghost use Rattle.hons_arena.specs.Probe.{IsEnd};

use crate::cell::{Cell, has_newest_part, same_cell};
use crate::hash::{fingerprint_of, home};
use crate::slots::{FREE, first_free};

/// Where the walk for a cell ends.
#[derive(Drop)]
pub enum Probe {
    /// In the slot of the cell, which has this number.
    Found(u32),
    /// In this empty slot: the cell is not held.
    Empty(usize),
}

/// Where the walk for a cell of this hash ends. Each cell is behind its parts, so a cons with a part in the newest cell is not
/// held: its walk reads no slot, and compares it with no cell.
#[inline(always)]
pub fn end_for(cells: &[Cell], slots: &[u32], fingerprints: &[u8], cell: Cell, hash: u64) -> Probe
    requires table { IsTable cells.now slots.now }
    requires marked { IsMarked cells.now slots.now fingerprints.now }
    requires hash { hash ≡ hash_of cell }
    requires room { length cells.now < length slots.now }
    requires interned { IsInterned cells.now }
    ensures { IsEnd cells.now slots.now cell result }
{
    if has_newest_part(cells.len(), cell) {
        return Probe::Empty(first_free(fingerprints, home(hash, slots.len())));
    }
    end_of_walk(cells, slots, fingerprints, cell, hash)
}

/// Walks from a cell's home to the cell, or to the first empty slot. Only the slots of cells with this one's fingerprint are read.
#[inline(always)]
fn end_of_walk(cells: &[Cell], slots: &[u32], fingerprints: &[u8], cell: Cell, hash: u64) -> Probe
    requires table { IsTable cells.now slots.now }
    requires marked { IsMarked cells.now slots.now fingerprints.now }
    requires hash { hash ≡ hash_of cell }
    requires room { length cells.now < length slots.now }
    ensures { IsEnd cells.now slots.now cell result }
{
    let wanted = fingerprint_of(hash);
    let mut slot = home(hash, slots.len());
    for _step in 0..fingerprints.len() {
        let fingerprint = fingerprints[slot];
        if fingerprint == FREE {
            return Probe::Empty(slot);
        }
        if fingerprint == wanted {
            let number = slots[slot];
            if same_cell(cells[number as usize], cell) {
                return Probe::Found(number);
            }
        }
        slot = if slot + 1 == fingerprints.len() {
            0
        } else {
            slot + 1
        };
    }
    unreachable!()
}
