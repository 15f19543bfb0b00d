//! What the agent keeps beside the heap: the mapping of variables to values, and the line of jobs and host events.
#![tactic(auto)]

mod line;
mod mapping;

pub use line::{Line, Next};
pub use mapping::Mapping;

#[cfg(test)]
mod tests;
