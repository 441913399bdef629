//! What forms mean, the world that every book begins with, and theorems by cases, with ample memory.

mod cases;
mod first_world;
mod reader;
mod terms;
