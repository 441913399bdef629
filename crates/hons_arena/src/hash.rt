//! The hash of a cell, from the cell's own words, the slot where the walk for it begins, and its fingerprint.
//!
//! Cells that are made one after the other are mostly asked for one after the other, so their slots lie side by side: in one
//! block of sixteen, which is a line of a processor's cache.

ghost use Rattle.std.specs.Prelude.{◌≡◌, ◌<◌};
ghost use Rattle.hons_arena.specs.Hash.{mixed, tag_of, apart, hash_of_parts, hash_of, home_at, fingerprint_of};

use crate::cell::Cell;
use crate::id::IdKind;

/// An odd number whose bits are even-handed: the golden ratio's.
const FACTOR: u64 = 0x9e37_79b9_7f4a_7c15;

/// Mixes a word into a hash, by the two products of splitmix64. The last shift gives the low bits their share of the high ones.
#[tactic(auto, unfolding(crate::specs::Hash::mixed))]
fn mix(hash: u64, word: u64) -> u64
    ensures { result ≡ mixed hash word }
{
    let first = (hash ^ word).wrapping_mul(0xbf58_476d_1ce4_e5b9);
    let second = (first ^ (first >> 32)).wrapping_mul(0x94d0_49bb_1331_11eb);
    second ^ (second >> 32)
}

/// What tells the kinds of words apart.
fn tag(kind: IdKind) -> u64
    ensures { result ≡ tag_of kind }
{
    match kind {
        IdKind::Symbol => FACTOR,
        IdKind::Text => 0xd1b5_4a32_d192_ed03,
        IdKind::Cell => 0x8cb9_2ba7_2f3d_8dd7,
    }
}

/// The difference of two words, one less, times a factor.
#[tactic(auto, unfolding(crate::specs::Hash::apart))]
fn apart(first: u64, rest: u64, factor: u64) -> u64
    ensures { result ≡ apart first rest factor }
{
    first.wrapping_add(u64::MAX - rest).wrapping_mul(factor)
}

/// The hash of a cons's two parts. Conses on one symbol or string lie by the first part. Others lie by the second part, behind
/// the difference of the two numbers, which is one for all whose parts were made at one distance.
#[tactic(auto, unfolding(crate::specs::Hash::hash_of_parts))]
fn hash_parts(first_kind: IdKind, rest_kind: IdKind, first: u64, rest: u64) -> u64
    ensures { result ≡ hash_of_parts first_kind rest_kind first rest }
{
    match rest_kind {
        IdKind::Cell => {
            let half = apart(first, rest, tag(first_kind)).wrapping_add(tag(IdKind::Cell));
            mix(half, rest / 16) ^ (rest % 16)
        }
        kind => {
            let half = rest.wrapping_mul(tag(first_kind)).wrapping_add(tag(kind));
            mix(half, first / 16) ^ (first % 16)
        }
    }
}

/// The hash of a cell. Words that differ in their last bits alone, three of an integer and four of a cons, have hashes that
/// differ in the last four alone. Integers take every second slot, which leaves room for others between them.
#[tactic(auto, unfolding(crate::specs::Hash::hash_of))]
pub fn hash(cell: Cell) -> u64
    ensures { result ≡ hash_of cell }
{
    match cell {
        Cell::Int(integer) => {
            let words = integer.cast_unsigned();
            let low = (words % (1 << 64)) as u64;
            let high = (words / (1 << 64)) as u64;
            mix(high.wrapping_mul(FACTOR), low / 8) ^ (low % 8 * 2)
        }
        Cell::Character(code) => mix(FACTOR, u64::from(code)),
        Cell::Cons(first_kind, rest_kind, first, rest) => {
            hash_parts(first_kind, rest_kind, first, rest)
        }
    }
}

/// The slot, of so many, at which the walk for a cell of this hash begins. The high half of the product of hash and blocks,
/// which takes no division, is a block of sixteen slots; the hash's last four bits are the slot in it.
#[inline(always)]
#[tactic(auto, using(crate::proofs::Homes::home_fits, crate::proofs::Homes::product_fits))]
pub fn home(hash: u64, slots: usize) -> usize
    requires { 0 < slots }
    ensures home { result ≡ home_at slots hash }
    ensures within { result < slots }
{
    let product = u128::from(hash) * (slots / 16) as u128;
    let block = (product / (1 << 64)) as usize;
    (block * 16 + (hash % 16) as usize).min(slots - 1)
}

/// The fingerprint of a cell of this hash, from 1 to 128: the seven bits above those that are its slot in a block. Cells whose
/// hashes differ in the last four bits alone share it, and have homes of their own; of other cells one in 128 has it.
#[inline(always)]
pub fn fingerprint_of(hash: u64) -> u8
    ensures { result ≡ fingerprint_of hash }
{
    (hash / 16 % 128) as u8 + 1
}
