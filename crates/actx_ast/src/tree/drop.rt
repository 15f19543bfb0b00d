//! Trees taken apart over a list of the parts that wait, so that no depth of a tree runs out of stack.

ghost use Rattle.std.specs.Prelude.{◌≡◌, ◌≤◌, ◌<◌, ◌+◌, [], ℕ, IfNone, IfSome};
ghost use Rattle.std.specs.Vec.{vec_capacity, vec_len};
ghost use Rattle.actx_ast.specs.Apart.{AllBelow, IsBelow, weigh, weight};
ghost use Rattle.actx_ast.specs.declared.tree.drop.Part.TheVariants.{Clauses, Consts, Exprs, Lets, Properties, Stmts};

mod exprs;
mod stmts;

use super::{Clause, ConstItem, Expr, Function, LetItem, Property, Stmt};

/// What owns a part of a tree in memory of its own. It has no drop, so that no drop of a tree is hidden in it.
pub(super) enum Part {
    Expr(Box<Expr>),
    Stmt(Box<Stmt>),
    Function(Box<Function>),
    Exprs(Vec<Expr>),
    Stmts(Vec<Stmt>),
    Properties(Vec<Property>),
    Lets(Vec<LetItem>),
    Consts(Vec<ConstItem>),
    Clauses(Vec<Clause>),
}

/// The room for the parts that one step adds: at most the rest of a list and those of a `for` in it.
const ROOM: usize = 5;

#[tactic(auto, using(crate::proofs::Parts::AllBelow_put, crate::proofs::Parts::weigh_put))]
fn put(parts: &mut Vec<Part>, part: Part)
    requires { vec_len parts.old < vec_capacity parts.old }
    ensures below { (n : ℕ) → IsBelow n part → AllBelow n parts.old.items → AllBelow n parts.new.items }
    ensures weight { weigh parts.new.items ≡ weigh parts.old.items + weight part }
    ensures length { vec_len parts.new ≡ vec_len parts.old + 1 }
    ensures capacity { vec_capacity parts.new ≡ vec_capacity parts.old }
{
    parts.push_reserved(part);
}

#[tactic(auto, using(crate::proofs::Parts::AllBelow_rest, crate::proofs::Parts::AllBelow_last, crate::proofs::Parts::weigh_put, crate::proofs::Parts::some_weight))]
fn take(parts: &mut Vec<Part>) -> Option<Part>
    ensures below { (n : ℕ) → AllBelow n parts.old.items → AllBelow n parts.new.items }
    ensures last { (n : ℕ) → AllBelow n parts.old.items → IfSome result (IsBelow n) }
    ensures weight { IfSome result (λ p. weigh parts.old.items ≡ weigh parts.new.items + weight p) }
    ensures smaller { IfSome result (λ p. weigh parts.new.items < weigh parts.old.items) }
    ensures none { IfNone result (parts.new.items ≡ []) }
{
    parts.pop()
}

#[tactic(auto, using(crate::proofs::Parts::listed_last))]
fn open_exprs(mut es: Vec<Expr>, parts: &mut Vec<Part>)
    requires { vec_len parts.old + 4 ≤ vec_capacity parts.old }
    ensures below { (n : ℕ) → IsBelow n (Exprs es) → AllBelow n parts.old.items → AllBelow n parts.new.items }
    ensures weight { weigh parts.new.items < weigh parts.old.items + weight (Exprs es) }
    ensures length { vec_len parts.new ≤ vec_len parts.old + 4 }
    ensures capacity { vec_capacity parts.new ≡ vec_capacity parts.old }
{
    match es.pop() {
        Some(e) => {
            put(parts, Part::Exprs(es));
            e.open(parts);
        }
        None => es.destroy_empty(),
    }
}

#[tactic(auto, using(crate::proofs::Parts::listed_last))]
fn open_stmts(mut ss: Vec<Stmt>, parts: &mut Vec<Part>)
    requires { vec_len parts.old + 5 ≤ vec_capacity parts.old }
    ensures below { (n : ℕ) → IsBelow n (Stmts ss) → AllBelow n parts.old.items → AllBelow n parts.new.items }
    ensures weight { weigh parts.new.items < weigh parts.old.items + weight (Stmts ss) }
    ensures length { vec_len parts.new ≤ vec_len parts.old + 5 }
    ensures capacity { vec_capacity parts.new ≡ vec_capacity parts.old }
{
    match ss.pop() {
        Some(st) => {
            put(parts, Part::Stmts(ss));
            st.open(parts);
        }
        None => ss.destroy_empty(),
    }
}

#[tactic(auto, using(crate::proofs::Parts::listed_last))]
fn open_properties(mut ps: Vec<Property>, parts: &mut Vec<Part>)
    requires { vec_len parts.old + 5 ≤ vec_capacity parts.old }
    ensures below { (n : ℕ) → IsBelow n (Properties ps) → AllBelow n parts.old.items → AllBelow n parts.new.items }
    ensures weight { weigh parts.new.items < weigh parts.old.items + weight (Properties ps) }
    ensures length { vec_len parts.new ≤ vec_len parts.old + 5 }
    ensures capacity { vec_capacity parts.new ≡ vec_capacity parts.old }
{
    match ps.pop() {
        Some(p) => {
            put(parts, Part::Properties(ps));
            p.open(parts);
        }
        None => ps.destroy_empty(),
    }
}

#[tactic(auto, using(crate::proofs::Parts::listed_last))]
fn open_lets(mut items: Vec<LetItem>, parts: &mut Vec<Part>)
    requires { vec_len parts.old + 2 ≤ vec_capacity parts.old }
    ensures below { (n : ℕ) → IsBelow n (Lets items) → AllBelow n parts.old.items → AllBelow n parts.new.items }
    ensures weight { weigh parts.new.items < weigh parts.old.items + weight (Lets items) }
    ensures length { vec_len parts.new ≤ vec_len parts.old + 2 }
    ensures capacity { vec_capacity parts.new ≡ vec_capacity parts.old }
{
    match items.pop() {
        Some(item) => {
            put(parts, Part::Lets(items));
            item.open(parts);
        }
        None => items.destroy_empty(),
    }
}

#[tactic(auto, using(crate::proofs::Parts::listed_last))]
fn open_consts(mut items: Vec<ConstItem>, parts: &mut Vec<Part>)
    requires { vec_len parts.old + 4 ≤ vec_capacity parts.old }
    ensures below { (n : ℕ) → IsBelow n (Consts items) → AllBelow n parts.old.items → AllBelow n parts.new.items }
    ensures weight { weigh parts.new.items < weigh parts.old.items + weight (Consts items) }
    ensures length { vec_len parts.new ≤ vec_len parts.old + 4 }
    ensures capacity { vec_capacity parts.new ≡ vec_capacity parts.old }
{
    match items.pop() {
        Some(item) => {
            put(parts, Part::Consts(items));
            item.open(parts);
        }
        None => items.destroy_empty(),
    }
}

#[tactic(auto, using(crate::proofs::Parts::listed_last))]
fn open_clauses(mut clauses: Vec<Clause>, parts: &mut Vec<Part>)
    requires { vec_len parts.old + 2 ≤ vec_capacity parts.old }
    ensures below { (n : ℕ) → IsBelow n (Clauses clauses) → AllBelow n parts.old.items → AllBelow n parts.new.items }
    ensures weight { weigh parts.new.items < weigh parts.old.items + weight (Clauses clauses) }
    ensures length { vec_len parts.new ≤ vec_len parts.old + 2 }
    ensures capacity { vec_capacity parts.new ≡ vec_capacity parts.old }
{
    match clauses.pop() {
        Some(clause) => {
            put(parts, Part::Clauses(clauses));
            clause.open(parts);
        }
        None => clauses.destroy_empty(),
    }
}

impl Part {
    /// Lets the part's own memory go, and keeps what it held.
    fn open(self, parts: &mut Vec<Part>)
        requires { vec_len parts.old + 5 ≤ vec_capacity parts.old }
        ensures below { (n : ℕ) → IsBelow n self → AllBelow n parts.old.items → AllBelow n parts.new.items }
        ensures weight { weigh parts.new.items < weigh parts.old.items + weight self }
        ensures length { vec_len parts.new ≤ vec_len parts.old + 5 }
        ensures capacity { vec_capacity parts.new ≡ vec_capacity parts.old }
    {
        match self {
            Part::Expr(e) => Box::into_inner(e).open(parts),
            Part::Stmt(st) => Box::into_inner(st).open(parts),
            Part::Function(f) => Box::into_inner(f).open(parts),
            Part::Exprs(es) => open_exprs(es, parts),
            Part::Stmts(ss) => open_stmts(ss, parts),
            Part::Properties(ps) => open_properties(ps, parts),
            Part::Lets(items) => open_lets(items, parts),
            Part::Consts(items) => open_consts(items, parts),
            Part::Clauses(clauses) => open_clauses(clauses, parts),
        }
    }
}

/// Takes the parts apart until none is left, or gives the first for which there is no memory.
pub(super) fn run(parts: &mut Vec<Part>) -> Option<Part>
    ensures rest { (n : ℕ) → AllBelow n parts.old.items → AllBelow n parts.new.items }
    ensures last { (n : ℕ) → AllBelow n parts.old.items → IfSome result (IsBelow n) }
    ensures weight { IfSome result (λ p. weigh parts.new.items < weigh parts.old.items) }
    ensures none { IfNone result (parts.new.items ≡ []) }
{
    while let Some(part) = take(parts) {
        match parts.reserve(ROOM) {
            Ok(()) => part.open(parts),
            Err(_) => return Some(part),
        }
    }
    None
}
