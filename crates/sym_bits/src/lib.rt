//! Integers of bit functions: lists of edges in two's complement, the lowest bit first and the sign last.
//!
//! The calls work over any store of bit functions, on the lists of `bfr_store`. What a call does is one fact that its
//! contract cites: `MakesInteger` of `specs/Calls` for a list, `MakesTwoIntegers` of `specs/Dividing` for two, `Makes` of
//! `bfr_store` for an edge, and `MakesShifted` of `specs/Shifting`. The store is kept, the edges of the answer are live,
//! and under every assignment they stand for the logic's own result on the integers that the arguments stand for. The
//! answer is `Full` only where the store's count stands at its limit. No call takes memory.
//!
//! A result has its full width, and no bit that is its sign again at the top. So [`add`] of 128 bits has 129, [`times`]
//! 256, and [`fits`] tells where an integer lies within 128 bits: there [`narrow`] is the same integer in 128 bits at most.
//! [`shift`] narrows its result itself, and tells where it can't.
//!
//! How the results are made, so that they take few nodes:
//!
//! - the gates of `bfr_store` work out constants, equal edges and complements, and call the store for the rest alone;
//! - a sum is one full adder a bit; a comparison is one chain from the lowest bit;
//! - a product adds a row for each bit of the second factor, at the width of the first: what is lower is done;
//! - a quotient is made from the top, one difference and one choice of the divisor's width a turn, as many turns as the
//!   dividend has bits beside its sign;
//! - a shift is one row of choices, by up to seven bits of the count; a negative count goes to the left by these bits
//!   too, and then to the right by a constant. What a far count gives is answered at once;
//! - the bit at an integer place is a tree of choices, one for each bit of the list.
//!
//! Node counts in a store of decision diagrams, beside those of textbook circuits for the same functions: what is added to
//! the nodes of the variables, with parts that are used no more. The variables of two integers stand in turn, the signs
//! first; those of the count of places stand before the integer's. A test of `bits_tests` holds the calls to them,
//! and compares the edges.
//!
//! | call | bits | nodes | a textbook circuit's |
//! |---|---|---|---|
//! | [`add`] | 16, 32, 64 | 95, 191, 383 | 126, 254, 510: a ripple adder |
//! | [`less`] | 16, 32, 64 | 62, 126, 254 | 126, 254, 510: the sign of a difference |
//! | [`same`] | 16, 32, 64 | 61, 125, 253 | 61, 125, 253: a chain of conjunctions |
//! | [`times`] | 4, 6, 8 | 269, 2,708, 28,399 | 583, 7,053, 80,111: rows shifted and added at the whole width |
//! | [`floor_mod`] | 8 by 8 | 36,550 | 53,673: restoring division of magnitudes |
//! | [`shift`] | 32 by a count of 5 | 196 | 1,221: two barrel shifters and a choice |
//!
//! Tests: the crate `bits_tests`.
#![tactic(auto)]

mod bitwise;
mod comparisons;
mod digits;
mod division;
mod full_add;
mod gate;
mod lengths;
mod lists;
mod places;
mod products;
mod quotients;
mod shifted;
mod shifts;
mod sums;

pub use bitwise::{and_bits, complement, complement_if, or_bits, select, xor_bits};
pub use comparisons::{fits, is_nonzero, less, same};
pub use lengths::int_length;
pub use lists::{above, bit, constant_bit, digit_of, mask, narrow};
pub use places::bit_at;
pub use products::times;
pub use quotients::{floor_mod, truncate_rem};
pub use shifted::Shifted;
pub use shifts::shift;
pub use sums::{add, negate, negate_if, subtract};
