//! The mapping of variables to values that is current, as `v.run("x", f)` changes it (TC39 AsyncContext).

ghost use Rattle.std.specs.Prelude.{◌≡◌, [], ◌++◌, ◌∷◌, IfOk, Some, None, OnOk, position, nat_eq, map};
ghost use Rattle.std.specs.Option.{option_copied};
ghost use Rattle.std.specs.List.{IsDistinct};
ghost use Rattle.actx_agent.specs.Mapping.{mapped, with_mapped};

use actx_data::{NoMemory, Twin, Value};
use std::alloc::Global;
use std::marker::Model;

/// Variables with their values, seen as a list of pairs with distinct numbers; the number 0 is the current span.
#[derive(Drop)]
pub struct Mapping {
    alloc: Global,
    entries: Vec<(u64, Value)>,
}

impl Model for Mapping {
    ghost use Rattle.std.specs.Prelude.{List, ℕ, map, nat_eq};
    ghost use Rattle.std.specs.List.{IsDistinct};
    ghost use Rattle.actx_data.specs.declared.value.Value.{Value as ProgramValue};

    ghost Value = { List (ℕ × ProgramValue) };

    ghost view = { λ m. m.entries.items };

    ghost invariant = { λ m. IsDistinct nat_eq (map (λ e. e.0) m.entries.items) };
}

/// The same pairs once more.
fn twins_of(alloc: Global, entries: &[(u64, Value)]) -> Result<Vec<(u64, Value)>, NoMemory>
    ensures { IfOk result (λ twins. twins.items ≡ entries.now) }
{
    let mut twins = Vec::with_capacity(alloc, entries.len())?;
    for entry in entries {
        let value = entry.1.copy(alloc)?;
        twins.push((entry.0, value))?;
    }
    Ok(twins)
}

/// The value of a variable.
fn value_of(entries: &[(u64, Value)], variable: u64) -> Option<&Value>
    ensures { option_copied result ≡ mapped variable entries.now }
{
    for entry in entries {
        if entry.0 == variable {
            return Some(&entry.1);
        }
    }
    None
}

/// Where a variable stands.
fn place_of(entries: &[(u64, Value)], variable: u64) -> Option<usize>
    ensures { result ≡ position (λ e. nat_eq e.0 variable) entries.now }
{
    entries.iter().position(|entry| entry.0 == variable)
}

/// Sets the value of a variable in its place, or adds it last.
fn set(entries: &mut Vec<(u64, Value)>, variable: u64, value: Value) -> Result<(), NoMemory>
    ensures { OnOk result (entries.new.items ≡ with_mapped variable value entries.old.items) }
{
    match place_of(entries.as_slice(), variable) {
        Some(place) => entries[place] = (variable, value),
        None => entries.push((variable, value))?,
    }
    Ok(())
}

impl Mapping {
    /// No variable has a value; no memory is taken.
    pub fn new(alloc: Global) -> Mapping
        ensures { result ≡ [] }
    {
        Mapping {
            alloc,
            entries: Vec::new(alloc),
        }
    }

    /// The value of a variable; `None` exactly where it isn't mapped.
    pub fn get(&self, variable: u64) -> Option<&Value>
        ensures { option_copied result ≡ mapped variable self.now }
    {
        value_of(self.entries.as_slice(), variable)
    }

    /// All variables with their values, in order; no number stands there twice.
    pub fn entries(&self) -> &[(u64, Value)]
        ensures entries { result.now ≡ self.now }
        ensures distinct { IsDistinct nat_eq (map (λ e. e.0) self.now) }
    {
        self.entries.as_slice()
    }

    /// A mapping with one variable at a value: one that is mapped keeps its place, and a new one goes last. The old
    /// mapping stays as it is.
    pub fn with(&self, variable: u64, value: Value) -> Result<Mapping, NoMemory>
        ensures { IfOk result (λ m. m ≡ with_mapped variable value self.now) }
    {
        let mut entries = twins_of(self.alloc, self.entries.as_slice())?;
        set(&mut entries, variable, value)?;
        Ok(Mapping {
            alloc: self.alloc,
            entries,
        })
    }
}

impl Twin for Mapping {
    ghost same = { λ a b. a ≡ b };

    /// Errors: `NoMemory`, where a value can't be copied.
    fn copy(&self, alloc: Global) -> Result<Mapping, NoMemory> {
        let entries = twins_of(alloc, self.entries.as_slice())?;
        Ok(Mapping { alloc, entries })
    }
}
