//! Proof logs that are read, judged and written, with ample memory.

mod plain;
mod rows;
mod shelves;
mod spoiled;
mod texts;
