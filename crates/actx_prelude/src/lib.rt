//! The prelude: the plain statements that stand before each emitted program.
#![tactic(auto)]

pub mod prelude;
