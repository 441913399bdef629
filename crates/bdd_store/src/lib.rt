//! Reduced ordered binary decision diagrams with complemented edges, after Bryant and after Brace, Rudell and Bryant.
//!
//! A [`Bdd`] is a store of bit functions: it has the calls of `bfr_store`'s trait `Bits`. Its nodes test the variables in
//! the order of their numbers, a node's high edge is never complemented and its edges differ, and no two nodes are
//! equal. So two live edges are equal exactly where they say the same under every assignment: the edge that a call
//! answers is the only one of its function. A decision is a comparison with the constant false and one walk down. It is
//! never given up, and it takes no memory.
//!
//! Nodes stand in room that is reserved when the store is made, and so do the buckets by which a node is found again, in
//! chains that lead from newer to older nodes, and a table of finished calls, in which a new entry takes the place of an
//! older one, so that it never refuses. Both tables start with a thousand places and double inside their room as nodes
//! come: there are as many buckets as nodes, and up to 262,144 finished calls. So no call takes memory, and a new store
//! costs microseconds whatever its limit is. A place is found without a division. There is no collection of nodes and no
//! other order of variables.
//!
//! A call is `Full` only where its answer is not there: a function that some live edge stands for is found again in a full
//! store too.
//!
//! Conjunction and choice go down both branches at the first variable of their operands, so they call themselves as
//! deep as there are different variables below the operands. A test goes 1,024 deep.
//!
//! Node counts, to set beside other packages: all nodes of the store at the end are counted, with those of parts that are
//! used no more. In the adders the variables of the three words alternate, most significant bit first; in the multiplier
//! those of the two factors alternate, least significant bit first.
//!
//! | functions | nodes |
//! |---|---|
//! | the 256 functions of three variables | 127 |
//! | `x + y = z` in words of 16 bits, by a sum and by a difference, which meet in one edge | 544 |
//! | the same in words of 64 bits | 2,272 |
//! | the 16 bits of the product of two 8-bit factors, by the rows of the first factor | 88,891 |
//! | the same again by the rows of the second, which meets the first in each bit | 158,561 |
//!
//! Processor time in milliseconds, the least of four runs on a shared machine, beside that of a body whose tables had their
//! full size from the start, at most a million buckets, and places by a remainder:
//!
//! | work | before | now |
//! |---|---|---|
//! | 1,000 stores of limit 1,000, with one variable each | 2 | 3 |
//! | the same with a limit of 1,000,000 | 5,000 | 28 |
//! | the same with a limit of 4,000,000 | 880 | 32 |
//! | the product of two 8-bit factors, both ways (158,561 nodes) | 58 | 45 |
//! | of two 9-bit factors (513,374 nodes) | 213 | 185 |
//! | of two 10-bit factors (1,650,242 nodes) | 978 | 874 |
//!
//! The same products on another machine, the whole process, beside BuDDy 2.4 (161,439, 524,647 and 1,691,665 nodes): 20, 120
//! and 610 milliseconds here, 94, 204 and 659 there.
//!
//! Tests: the crate `store_tests`.
#![tactic(auto)]

mod bits;
pub mod entry;
pub mod node;
mod operations;
pub mod parts;
pub mod plan;
pub mod store;
mod tables;
mod walks;

pub use parts::Test;
pub use store::Bdd;
