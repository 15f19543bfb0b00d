//! The nodes of a program as a table, so that a node and its parts are found by their numbers without a walk.
#![tactic(auto)]

mod join;
pub mod label;
pub mod nodes;
mod walk;
