//! From tokens to the program that they spell (ECMA-262, 13 to 15): `a = 1 ;` is one statement that sets `a`.
#![tactic(auto)]

pub mod parse;
