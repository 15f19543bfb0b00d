//! The theory of machines that match: a simulation of one machine by another shows that both show the same, in both
//! directions. A machine that counts by ones to 10 and one that counts by halves and shows whole numbers match, for one.
#![tactic(auto)]

mod bounded;
mod simulation;

pub use bounded::{BoundedSimulation, bounded_match};
pub use simulation::{Simulation, related_match};
