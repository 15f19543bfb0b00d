//! Trees of programs: their copies, how deep they are, which side they are of, and how they are spelled.
#![tactic(auto)]

mod copy;
pub mod depth;
mod levels;
pub mod sides;
pub mod spell;
pub mod tree;
