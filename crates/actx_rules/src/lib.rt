//! The step tables of both machines, what a program is lowered to, and the laws of their runs.
#![tactic(auto)]

pub mod laws;
