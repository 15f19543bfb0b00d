//! The two sides of the compiler.

/// Which texts are read and printed: those of users, or those of the compiler.
#[derive(Clone, Copy, Debug, Drop, PartialEq, Eq)]
pub enum Side {
    Source,
    Plain,
}
