//! The modes of the program.

/// What the program does with a text.
#[derive(Clone, Copy, Debug, Drop, PartialEq, Eq)]
pub enum Mode {
    /// Writes the emitted text.
    Lower,
    /// Runs the emitted text.
    Run,
}
