//! Where a run stands.

ghost use Rattle.std.specs.Prelude.{◌≡◌, IfOk};

use super::{NoMemory, Shown, Twin};
use std::alloc::Global;

/// The end of a run, or that it goes on.
#[derive(Debug, Drop, PartialEq, Eq)]
pub enum End {
    Going,
    Ended,
    Threw(Shown),
    /// The run met what the profile doesn't cover, and stopped before any further effect.
    Left,
}

impl Twin for End {
    ghost same = { λ a b. a ≡ b };

    /// Errors: `NoMemory`, where a shown text can't be copied.
    fn copy(&self, alloc: Global) -> Result<End, NoMemory> {
        Ok(match self {
            End::Going => End::Going,
            End::Ended => End::Ended,
            End::Threw(shown) => End::Threw(shown.copy(alloc)?),
            End::Left => End::Left,
        })
    }
}
