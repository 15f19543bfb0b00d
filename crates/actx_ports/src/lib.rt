//! Cabinets of files and sinks for bytes: all that the compiler reads and writes goes through them. As an example,
//! `read_whole(alloc, &mut files, "a.js", 1_048_576)` is the text of `a.js` in a cabinet that holds it.
#![tactic(auto)]

mod cabinet;
mod edge;
mod faults;
mod memory;
mod schedule;
mod shelf;
mod sink;
mod steady;
mod whole;

pub use cabinet::Cabinet;
pub use edge::{FileCabinet, StdSink};
pub use faults::PortFault;
pub use memory::{MemoryCabinet, MemorySink};
pub use sink::Sink;
pub use steady::{SteadyCabinet, SteadySink};
pub use whole::{read_whole, write_whole};

#[cfg(test)]
mod tests;
