//! Where the nodes of a program begin in the tokens that spell it.
#![tactic(auto)]

pub mod places;
