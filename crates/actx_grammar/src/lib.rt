//! Words, tokens and operators of programs, and the definitions of their grammar, their spelling and their parser.
#![tactic(auto)]

pub mod forms;
pub mod keywords;
pub mod name;
pub mod names;
pub mod operators;
mod reserved;
pub mod side;
pub mod token;
pub mod words;
