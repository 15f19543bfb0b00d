//! Tests of the public calls of the crates below, with ample memory. They stand here, since a crate with tests is proved twice.

mod cases;
mod grammar;
mod lines;
mod nodes;
mod pictures;
mod plain_runs;
mod printed;
mod programs;
mod scopes;
mod tokens;
mod trees;
