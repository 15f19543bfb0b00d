//! The heap: things by their numbers, and the reading and writing of their properties, as `o.x` and `o["x"] = 1`.
#![tactic(auto)]

mod answers;
mod equality;
mod heap;
mod keys;
mod read;
mod table;
mod thing;
mod words;
mod write;

pub use answers::{Got, Put};
pub use equality::same;
pub use heap::{Heap, Kind, Seen};

#[cfg(test)]
mod tests;
