//! The static rules of a program, and what its names refer to.

mod exprs;
mod functions;
mod scopes;
mod state;
mod stmts;

pub use functions::walk_function;
pub use state::Walk;
pub use stmts::walk_block;
