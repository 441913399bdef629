//! Integers whose bits are edges of a store of decision diagrams.

mod bit_lists;
mod integers;
mod node_counts;
mod plain_circuits;
