//! The stack of a machine: the frames that wait, the last one on top.
#![tactic(auto)]

mod stack;

pub use stack::Stack;

#[cfg(test)]
mod tests;
