//! Laws of how programs are spelled, parsed and numbered, over the definitions alone.
#![tactic(auto)]

pub mod laws;
