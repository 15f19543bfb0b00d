//! What the host hands to a program.

ghost use Rattle.std.specs.Prelude.{◌≡◌, IfOk};

use super::{NoMemory, Twin, Units};
use std::alloc::Global;

/// A host event: its name and its text.
#[derive(Debug, Drop, PartialEq, Eq)]
pub struct Event {
    pub name: Units,
    pub text: Units,
}

impl Twin for Event {
    ghost same = { λ a b. a ≡ b };

    /// Errors: `NoMemory`, where the name or the text can't be copied.
    fn copy(&self, alloc: Global) -> Result<Event, NoMemory> {
        let name = self.name.copy(alloc)?;
        let text = self.text.copy(alloc)?;
        Ok(Event { name, text })
    }
}
