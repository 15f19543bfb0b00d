//! The nodes of a program, found by their numbers.

ghost use Rattle.std.specs.Prelude.{◌≡◌, IfOk, length, slice_get};
ghost use Rattle.actx_ast.specs.View.{program_view};
ghost use Rattle.actx_grammar.specs.Nodes as g;
ghost use Rattle.actx_nodes.specs.Build.{build};
ghost use Rattle.actx_nodes.specs.Forest.{body_of, entry_or, forest, label_at, label_or, node_at, parts_at, roots_of};
ghost use Rattle.actx_nodes.specs.Node.{nth};
ghost use Rattle.actx_nodes.specs.Preorder.{stmts_nodes};

use super::join::{Entry, table};
use super::label::{ExprLabel, Label};
use super::walk::heads_of;
use actx_ast::tree::Program;
use actx_data::NoMemory;
use std::alloc::Global;
use std::marker::Model;

/// The nodes of a program by their numbers, from 0 in the order of the text: each statement and expression, each name that is
/// bound, each key after a dot and each fixed key of a literal. A node comes before those that stand in it.
#[derive(Drop)]
pub struct Nodes {
    rows: Vec<Entry>,
    /// The statements of the program's list.
    roots: Vec<usize>,
    /// What stands for a number that no node has.
    none: Label,
}

impl Model for Nodes {
    ghost use Rattle.std.specs.Prelude.{◌≡◌, ◌<◌, ◌^◌, length};
    ghost use Rattle.actx_nodes.specs.Forest.{Table};
    ghost use Rattle.actx_nodes.specs.declared.label.Label.TheVariants.{Expr};
    ghost use Rattle.actx_nodes.specs.declared.label.ExprLabel.TheVariants.{Undefined};

    ghost Value = { Table };

    ghost view = { λ n. record { rows = n.rows.items; roots = n.roots.items } };

    ghost invariant = { λ n. (n.none ≡ Expr Undefined) × (length n.rows.items < 2 ^ 64) };
}

/// The label of a row, or another where there is no such row.
fn label_in<'a>(rows: &'a [Entry], none: &'a Label, number: usize) -> &'a Label
    ensures { result.now ≡ label_or none.now (slice_get rows.now number) }
{
    match rows.get(number) {
        Some(row) => &row.label,
        None => none,
    }
}

/// How many parts a row has.
fn count_in(rows: &[Entry], number: usize) -> usize
    ensures { result ≡ length (entry_or (slice_get rows.now number)).parts }
{
    match rows.get(number) {
        Some(row) => row.parts.len(),
        None => 0,
    }
}

/// A number of a list.
fn number_in(numbers: &[usize], at: usize) -> Option<usize>
    ensures { result ≡ slice_get numbers.now at }
{
    match numbers.get(at) {
        Some(number) => Some(*number),
        None => None,
    }
}

/// How far a part of a row stands behind the next row.
fn part_in(rows: &[Entry], number: usize, at: usize) -> Option<usize>
    ensures { result ≡ slice_get (entry_or (slice_get rows.now number)).parts at }
{
    match rows.get(number) {
        Some(row) => number_in(&row.parts, at),
        None => None,
    }
}

impl Nodes {
    /// The nodes of a program; their numbers are those of the static rules and of places. It takes time and memory in proportion to their number.
    ///
    /// # Errors
    ///
    /// `NoMemory` where memory runs out.
    pub fn new(alloc: Global, program: Program) -> Result<Nodes, NoMemory>
        ensures nodes { IfOk result (λ t. forest t.rows ≡ stmts_nodes (program_view program)) }
        ensures count { IfOk result (λ t. length t.rows ≡ g.stmts_nodes (program_view program)) }
        ensures body { IfOk result (λ t. body_of t ≡ program_view program) }
    {
        let heads = heads_of(alloc, &program)?;
        let (rows, roots) = table(alloc, heads)?;
        Ok(Nodes {
            rows,
            roots,
            none: Label::Expr(ExprLabel::Undefined),
        })
    }

    /// What a node is; a number that no node has stands for `undefined`.
    #[tactic(auto, using(crate::proofs::Opened::opened, crate::proofs::Opened::label_is))]
    pub fn label(&self, number: u64) -> &Label
        ensures label { result.now ≡ label_at self.now number }
        ensures node { node_at self.now number ≡ build result.now (parts_at self.now number) }
    {
        label_in(&self.rows, &self.none, number as usize)
    }

    /// How many parts a node has.
    pub fn count(&self, number: u64) -> u64
        ensures { result ≡ length (parts_at self.now number) }
    {
        count_in(&self.rows, number as usize) as u64
    }

    /// The number of a node's part, counted from 0; where there is none, a number that no node has.
    #[tactic(auto, using(crate::proofs::Opened::part_none, crate::proofs::Opened::part_there))]
    pub fn part(&self, number: u64, at: u64) -> u64
        ensures { node_at self.now result ≡ nth (parts_at self.now number) at }
    {
        match part_in(&self.rows, number as usize, at as usize) {
            None => u64::MAX,
            Some(distance) => number.saturating_add(1).saturating_add(distance as u64),
        }
    }

    /// The number of a statement of the program's list, counted from 0; where there is none, a number that no node has.
    #[tactic(auto, using(crate::proofs::Opened::root_none, crate::proofs::Opened::root_there))]
    pub fn root(&self, at: u64) -> u64
        ensures { node_at self.now result ≡ nth (roots_of self.now) at }
    {
        match number_in(&self.roots, at as usize) {
            None => u64::MAX,
            Some(number) => number as u64,
        }
    }

    /// How many statements the program's list has.
    pub fn roots(&self) -> u64
        ensures { result ≡ length (roots_of self.now) }
    {
        self.roots.len() as u64
    }
}
