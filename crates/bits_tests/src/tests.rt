//! Integers and objects over stores of a few edges, and integers over diagrams, with ample memory.

mod circuits;
mod integers;
mod objects;
