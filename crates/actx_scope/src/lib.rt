//! Names and scopes: whether a program keeps the static rules, which declaration each name refers to, and which names a
//! function takes from outside.
#![tactic(auto)]

mod bound;
mod count;
mod declared;
mod fault;
mod free;
mod known;
mod link;
mod names;
mod place;
mod rules;
mod walk;

pub use fault::CheckFault;
pub use free::free_names;
pub use rules::{Scopes, check};
