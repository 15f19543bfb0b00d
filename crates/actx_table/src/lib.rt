//! The step table of both machines with all plain forms, and the emitted program, as definitions; no code but laws.
#![tactic(auto)]

pub mod laws;
