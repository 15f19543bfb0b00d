//! The parser's steps: what it holds behind one more token.
#![tactic(auto)]

pub mod behind;
pub mod bodies;
pub mod ends;
pub mod functions;
pub mod items;
pub mod loops;
pub mod members;
pub mod names;
pub mod objects;
pub mod params;
pub mod standing;
pub mod statements;
pub mod tries;
