//! What the parser holds between two tokens, as the frame of a call whose arguments are read so far, and its moves there.
#![tactic(auto)]

pub mod forms;
pub mod key;
pub mod levels;
pub mod limits;
pub mod lists;
pub mod moves;
pub mod nodes;
pub mod operand;
pub mod settle;
pub mod stack;
pub mod state;
pub mod word;
