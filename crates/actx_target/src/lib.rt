//! The machine that runs plain programs, and the values that it works on.
#![tactic(auto)]

pub mod chain;
pub mod entries;
pub mod key;
pub mod line;
pub mod machine;
pub mod operators;
pub mod property;
pub mod scope;
pub mod shown;
pub mod sound;
pub mod table;
pub mod thing;
pub mod word;
