//! A table of nodes from their heads: from the last to the first, each takes its parts from those that stand behind it.

ghost use Rattle.std.specs.Prelude.{◌≡◌, ◌∷◌, IfOk, OnOk, length, map, take, drop, reverse};
ghost use Rattle.actx_nodes.specs.Forest.{Stands, distance, forest, entry, built, gathered};
ghost use Rattle.actx_nodes.specs.Node.{nth};

use super::label::{Head, Label};
use actx_data::NoMemory;
use std::alloc::Global;
use std::marker::Model;

/// A node's label, and its parts by their distances: 0 is the node behind this one.
#[derive(Drop)]
pub struct Entry {
    pub label: Label,
    pub parts: Vec<usize>,
}

impl Model for Entry {
    ghost use Rattle.actx_nodes.specs.Forest.{Entry as Row};

    ghost Value = { Row };

    ghost view = { λ e. record { label = e.label; parts = e.parts.items } };
}

/// How far a place is from the end of so many, where it is counted from their beginning.
fn distance(count: usize, place: usize) -> usize
    ensures { result ≡ distance count place }
{
    count.saturating_sub(place).saturating_sub(1)
}

/// So many places from the end, the last first, as distances.
fn distances(
    alloc: Global,
    places: &[usize],
    parts: usize,
    count: usize,
) -> Result<Vec<usize>, NoMemory>
    ensures { IfOk result (λ v. v.items ≡ map (distance count) (take parts (reverse places.now))) }
{
    let taken = places
        .iter()
        .rev()
        .take(parts)
        .map(|place| distance(count, *place))
        .collect(alloc)?;
    Ok(taken)
}

/// All places from the end, the last first, as distances.
fn all_distances(alloc: Global, places: &[usize], count: usize) -> Result<Vec<usize>, NoMemory>
    ensures { IfOk result (λ v. v.items ≡ map (distance count) (reverse places.now)) }
{
    let all = places
        .iter()
        .rev()
        .map(|place| distance(count, *place))
        .collect(alloc)?;
    Ok(all)
}

/// Drops so many places from the end.
#[tactic(auto, using(crate::proofs::Places::truncated))]
fn drop_last(places: &mut Vec<usize>, parts: usize)
    ensures { reverse places.new.items ≡ drop parts (reverse places.old.items) }
{
    places.truncate(places.len().saturating_sub(parts));
}

/// A node stands before those that are there, and takes its parts from the first of them.
fn join(
    alloc: Global,
    rows: &mut Vec<Entry>,
    places: &mut Vec<usize>,
    head: Head,
) -> Result<(), NoMemory>
    ensures rows { OnOk result (reverse rows.new.items ≡ entry head.label (map (distance (length rows.old.items)) (take head.parts (reverse places.old.items))) ∷ reverse rows.old.items) }
    ensures places { OnOk result (reverse places.new.items ≡ length rows.old.items ∷ drop head.parts (reverse places.old.items)) }
{
    let Head { label, parts } = head;
    let count = rows.len();
    let distances = distances(alloc, places, parts, count)?;
    drop_last(places, parts);
    rows.push(Entry {
        label,
        parts: distances,
    })?;
    places.push(count)?;
    Ok(())
}

/// The table of the nodes with these heads, and the numbers of those that stand in no other.
pub fn table(alloc: Global, heads: Vec<Head>) -> Result<(Vec<Entry>, Vec<usize>), NoMemory>
    ensures all { IfOk result (λ r. forest r.0.items ≡ built heads.items) }
    ensures roots { IfOk result (λ r. map (nth (forest r.0.items)) r.1.items ≡ gathered heads.items) }
{
    let mut heads = heads;
    let mut rows = Vec::new(alloc);
    let mut places = Vec::new(alloc);
    while let Some(head) = heads.pop() {
        join(alloc, &mut rows, &mut places, head)?;
    }
    let count = rows.len();
    let roots = all_distances(alloc, &places, count)?;
    rows.reverse();
    Ok((rows, roots))
}
