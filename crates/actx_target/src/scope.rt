//! One scope: its names in the order of their declarations, each with its value once that is there.

ghost use Rattle.std.specs.Prelude.{◌≡◌, ◌++◌, [], map, OnOk, IfOk, option_map, position};
ghost use Rattle.std.specs.Option.{option_copied};
ghost use Rattle.actx_rules.specs.Texts.{same_text};
ghost use Rattle.actx_target.specs.Cells.{cell_in, named_cell, cells_in, slot_of, found_cell, Replaced};
ghost use Rattle.actx_rules.specs.State.{cell_of, set_cell, with_cell, unset, param};
ghost use Rattle.actx_target.specs.View.{reading_of, found_value, standing_of};

use crate::sound::Sound;
use actx_data::{NoMemory, Twin};
use actx_grammar::name::Name;
use indexmap::IndexMap;
use std::alloc::Global;
use std::marker::Model;

/// What a name is in a scope.
#[derive(Drop)]
pub enum Reading {
    /// The scope doesn't declare it.
    Unbound,
    /// Its declaration hasn't run.
    Unset,
    Value(Sound),
}

/// What a scope has for a name: its value once that is there, and whether that stays.
#[derive(Drop)]
pub struct Slot {
    pub value: Option<Sound>,
    pub constant: bool,
}

/// Whether a name may be given a value: it is declared, and no constant that has one.
#[derive(Clone, Copy)]
enum Standing {
    Fixed,
    /// And whether it is a constant.
    Open(bool),
}

/// A name of a scope with its slot.
#[derive(Drop)]
struct Named {
    name: Name,
    slot: Slot,
}

/// The names of a scope with their values, seen as the list of its cells. A run may have millions of scopes, nearly all
/// with a few names, so the first names stand in a list, and only the further ones in a table, which takes more memory.
#[derive(Drop)]
pub struct Scope {
    first: Vec<Named>,
    further: Option<Box<IndexMap<Name, Slot>>>,
}

/// How many names stand in the list: few enough that one is found by looking at all.
const FIRST: usize = 8;

impl Model for Scope {
    ghost use Rattle.std.specs.Prelude.{List, map, ◌++◌};
    ghost use Rattle.actx_rules.specs.State.{Cell};
    ghost use Rattle.actx_target.specs.Cells.{named_cell, cells_in};

    ghost Value = { List Cell };

    ghost view = { λ s. map named_cell s.first.items ++ cells_in s.further };
}

/// What a name is whose slot is this.
fn made_of(alloc: Global, slot: Option<&Slot>) -> Result<Reading, NoMemory>
    ensures { IfOk result (λ reading. reading_of reading ≡ found_value (option_copied slot.entry)) }
{
    match slot {
        None => Ok(Reading::Unbound),
        Some(slot) => match &slot.value {
            None => Ok(Reading::Unset),
            Some(value) => Ok(Reading::Value(value.copy(alloc)?)),
        },
    }
}

impl Named {
    /// Whether this is the slot of that name.
    fn is_named(&self, name: &Name) -> bool
        ensures { result ≡ same_text name.now self.now.name }
    {
        *name == self.name
    }

    /// Gives the name this slot.
    fn give(&mut self, slot: Slot)
        ensures { named_cell self.new ≡ cell_in (self.old.name, slot) }
    {
        self.slot = slot;
    }
}

/// The slot of a name in a list of names.
fn slot_among<'a>(names: &'a [Named], name: &Name) -> Option<&'a Slot>
    ensures { option_copied result ≡ option_map slot_of (cell_of name.now (map named_cell names.now)) }
{
    match names {
        [] => None,
        [head, rest @ ..] => {
            if head.is_named(name) {
                Some(&head.slot)
            } else {
                slot_among(rest, name)
            }
        }
    }
}

/// The slot of a name in a table of names, where there is one.
#[tactic(auto, using(crate::proofs::Cells::looked_up))]
fn slot_further<'a>(table: &'a Option<Box<IndexMap<Name, Slot>>>, name: &Name) -> Option<&'a Slot>
    ensures { option_copied result ≡ option_map slot_of (cell_of name.now (cells_in table.now)) }
{
    match table {
        None => None,
        Some(table) => table.get(name),
    }
}

/// How far a name has come whose slot is this.
fn standing_of(slot: Option<&Slot>) -> Standing
    ensures { result ≡ standing_of (option_copied slot.entry) }
{
    match slot {
        None => Standing::Fixed,
        Some(slot) => match &slot.value {
            None => Standing::Open(slot.constant),
            Some(_) => {
                if slot.constant {
                    Standing::Fixed
                } else {
                    Standing::Open(false)
                }
            }
        },
    }
}

/// The place of a name in a list of names.
fn place_among(names: &[Named], name: &Name) -> Option<usize>
    ensures { result ≡ position (λ n. same_text name.now n.name) names.now }
{
    names.iter().position(|named| named.is_named(name))
}

/// Gives a name of a list this slot; where the name isn't there, the slot comes back.
fn replace(names: &mut Vec<Named>, name: &Name, slot: Slot) -> Option<Slot>
    ensures { Replaced name.now slot (map named_cell names.old.items) (map named_cell names.new.items) result }
{
    match place_among(names, name) {
        None => Some(slot),
        Some(place) => match names.get_mut(place) {
            None => Some(slot),
            Some(named) => {
                named.give(slot);
                None
            }
        },
    }
}

/// Puts a name into a table of names; one that is there keeps its place.
#[tactic(auto, using(crate::proofs::Cells::inserted))]
fn insert(
    alloc: Global,
    table: &mut IndexMap<Name, Slot>,
    name: &Name,
    slot: Slot,
) -> Result<(), NoMemory>
    ensures { OnOk result (map cell_in table.new.entries ≡ with_cell (cell_in (name.now, slot)) (map cell_in table.old.entries)) }
{
    table.insert(name.copy(alloc)?, slot)?;
    Ok(())
}

/// Puts a name that isn't among the first: behind them where there is room, else into the table.
fn add(
    alloc: Global,
    first: &mut Vec<Named>,
    further: &mut Option<Box<IndexMap<Name, Slot>>>,
    name: &Name,
    slot: Slot,
) -> Result<(), NoMemory>
    ensures { OnOk result (map named_cell first.new.items ++ cells_in further.new ≡ map named_cell first.old.items ++ with_cell (cell_in (name.now, slot)) (cells_in further.old)) }
{
    match further {
        Some(table) => insert(alloc, table, name, slot),
        None => {
            if first.len() < FIRST {
                let name = name.copy(alloc)?;
                first.reserve_exact(1)?;
                first.push(Named { name, slot })?;
            } else {
                let mut table = IndexMap::new(alloc);
                insert(alloc, &mut table, name, slot)?;
                *further = Some(Box::new(alloc, table)?);
            }
            Ok(())
        }
    }
}

impl Scope {
    /// A scope without names; no memory is taken.
    pub fn new(alloc: Global) -> Scope
        ensures { result ≡ [] }
    {
        Scope {
            first: Vec::new(alloc),
            further: None,
        }
    }

    /// The slot of a name that is declared here.
    fn slot(&self, name: &Name) -> Option<&Slot>
        ensures { option_copied result ≡ option_map slot_of (cell_of name.now self.now) }
    {
        match slot_among(&self.first, name) {
            Some(slot) => Some(slot),
            None => slot_further(&self.further, name),
        }
    }

    /// What a name is here.
    pub fn read(&self, alloc: Global, name: &Name) -> Result<Reading, NoMemory>
        ensures { IfOk result (λ reading. reading_of reading ≡ found_cell (cell_of name.now self.now)) }
    {
        made_of(alloc, self.slot(name))
    }

    /// Puts a name here with its slot; a name that is there keeps its place.
    fn put(&mut self, alloc: Global, name: &Name, slot: Slot) -> Result<(), NoMemory>
        ensures { OnOk result (self.new ≡ with_cell (cell_in (name.now, slot)) self.old) }
    {
        match replace(&mut self.first, name, slot) {
            None => Ok(()),
            Some(slot) => add(alloc, &mut self.first, &mut self.further, name, slot),
        }
    }

    /// Declares a constant, without a value.
    pub fn declare(&mut self, alloc: Global, name: &Name) -> Result<(), NoMemory>
        ensures { OnOk result (self.new ≡ with_cell (unset name.now) self.old) }
    {
        let value = None;
        let constant = true;
        self.put(alloc, name, Slot { value, constant })
    }

    /// Binds a parameter to its value.
    pub fn bind(&mut self, alloc: Global, name: &Name, value: Sound) -> Result<(), NoMemory>
        ensures { OnOk result (self.new ≡ with_cell (param name.now value) self.old) }
    {
        let value = Some(value);
        let constant = false;
        self.put(alloc, name, Slot { value, constant })
    }

    /// Gives a declared name its value; a constant that has one keeps it.
    pub fn set(&mut self, alloc: Global, name: &Name, value: Sound) -> Result<(), NoMemory>
        ensures { OnOk result (self.new ≡ set_cell name.now value self.old) }
    {
        match standing_of(self.slot(name)) {
            Standing::Fixed => Ok(()),
            Standing::Open(constant) => {
                let value = Some(value);
                self.put(alloc, name, Slot { value, constant })
            }
        }
    }
}
