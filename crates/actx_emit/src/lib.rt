//! From a plain program to its text: `const a = 1 ;` and a line end.
#![tactic(auto)]

pub mod emit;
mod text;
