//! The slot table: small at first, it grows fourfold within the room that was reserved for it.
//!
//! Beside each slot stands a byte: the fingerprint of its cell, or that of a free slot. A walk reads these bytes, and a slot and
//! its cell only where the cell may be the one that is wanted.

ghost use Rattle.std.specs.Prelude.{◌≡◌, ◌+◌, ◌*◌, ◌<◌, ◌≤◌, length, replicate, vec_capacity};
ghost use Rattle.hons_arena.specs.Hash.{free};
ghost use Rattle.hons_arena.specs.Table.{empty, most_slots, IsTable, IsMarked};
ghost use Rattle.hons_arena.specs.Probe.{IsNowhere, IsFirstWith};

use crate::cell::Cell;
use crate::hash::{fingerprint_of, hash, home};

/// What an empty slot has: a number that no cell has.
pub const EMPTY: u32 = u32::MAX;

/// What stands beside an empty slot: a fingerprint that no cell has.
pub const FREE: u8 = 0;

/// How many slots a table has at first, where so many are reserved.
pub const FIRST_SLOTS: usize = 1024;

/// The most slots for so many cells: a full arena leaves more than half of them empty.
pub fn most(limit: u32) -> usize
    ensures { result ≡ most_slots limit }
{
    2 * limit as usize + 1
}

/// Makes a table of so many slots, all empty.
pub fn make_empty(slots: &mut Vec<u32>, fingerprints: &mut Vec<u8>, size: usize)
    requires room { size ≤ vec_capacity slots.old }
    requires room_beside { size ≤ vec_capacity fingerprints.old }
    ensures items { slots.new.items ≡ replicate size empty }
    ensures items_beside { fingerprints.new.items ≡ replicate size free }
    ensures capacity { vec_capacity slots.old ≤ vec_capacity slots.new }
    ensures capacity_beside { vec_capacity fingerprints.old ≤ vec_capacity fingerprints.new }
{
    slots.clear();
    fingerprints.clear();
    match (slots.resize(size, EMPTY), fingerprints.resize(size, FREE)) {
        (Ok(()), Ok(())) => {}
        _ => unreachable!(),
    }
}

/// The first empty slot on the walk from a home. It is told by its fingerprint: no slot is read.
pub fn first_free(fingerprints: &[u8], home: usize) -> usize
    requires home { home < length fingerprints.now }
    requires somewhere { ¬ IsNowhere fingerprints.now home free }
    ensures first { IsFirstWith fingerprints.now home free result }
    ensures within { result < length fingerprints.now }
{
    let mut slot = home;
    for _step in 0..fingerprints.len() {
        if fingerprints[slot] == FREE {
            return slot;
        }
        slot = if slot + 1 == fingerprints.len() {
            0
        } else {
            slot + 1
        };
    }
    unreachable!()
}

/// The first slot with this number on the walk from a home.
pub fn slot_with(slots: &[u32], home: usize, number: u32) -> usize
    requires home { home < length slots.now }
    requires somewhere { ¬ IsNowhere slots.now home number }
    ensures first { IsFirstWith slots.now home number result }
    ensures within { result < length slots.now }
{
    let mut slot = home;
    for _step in 0..slots.len() {
        if slots[slot] == number {
            return slot;
        }
        slot = if slot + 1 == slots.len() { 0 } else { slot + 1 };
    }
    unreachable!()
}

/// Makes a table of so many slots, which the cells enter in their order.
#[cold]
#[inline(never)]
pub fn refill(cells: &[Cell], slots: &mut Vec<u32>, fingerprints: &mut Vec<u8>, size: usize)
    requires few { length cells.now ≤ empty }
    requires free { length cells.now < size }
    requires room { size ≤ vec_capacity slots.old }
    requires room_beside { size ≤ vec_capacity fingerprints.old }
    ensures table { IsTable cells.now slots.new.items }
    ensures marked { IsMarked cells.now slots.new.items fingerprints.new.items }
    ensures size { length slots.new.items ≡ size }
    ensures capacity { vec_capacity slots.old ≤ vec_capacity slots.new }
    ensures capacity_beside { vec_capacity fingerprints.old ≤ vec_capacity fingerprints.new }
{
    make_empty(slots, fingerprints, size);
    for number in 0..cells.len() {
        let hash = hash(cells[number]);
        let slot = first_free(fingerprints.as_slice(), home(hash, size));
        slots[slot] = number as u32;
        fingerprints[slot] = fingerprint_of(hash);
    }
}

/// Makes a table that is half full four times as large, within so many slots.
#[inline(always)]
pub fn make_room(cells: &[Cell], slots: &mut Vec<u32>, fingerprints: &mut Vec<u8>, most: usize)
    requires table { IsTable cells.now slots.old.items }
    requires marked { IsMarked cells.now slots.old.items fingerprints.old.items }
    requires some { 0 < length cells.now }
    requires few { length cells.now ≤ length slots.old.items }
    requires fewer { length cells.now < most }
    requires within { length slots.old.items ≤ most }
    requires room { most ≤ vec_capacity slots.old }
    requires room_beside { most ≤ vec_capacity fingerprints.old }
    ensures table { IsTable cells.now slots.new.items }
    ensures marked { IsMarked cells.now slots.new.items fingerprints.new.items }
    ensures free { length cells.now < length slots.new.items }
    ensures within { length slots.new.items ≤ most }
    ensures capacity { vec_capacity slots.old ≤ vec_capacity slots.new }
    ensures capacity_beside { vec_capacity fingerprints.old ≤ vec_capacity fingerprints.new }
{
    if cells.len() < slots.len() / 2 {
        return;
    }
    refill(
        cells,
        slots,
        fingerprints,
        slots.len().saturating_mul(4).min(most),
    );
}
