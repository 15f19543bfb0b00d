//! Copies of trees over lists of their own, so that no depth of a tree runs out of stack.
//! The nodes are listed, each before its parts, and then made from the last.

ghost use Rattle.std.specs.Prelude.{◌≡◌, [], ◌∷◌, IfOk, OnOk};
ghost use Rattle.actx_ast.specs.Copies.{copied, made, work_seen};
ghost use Rattle.actx_ast.specs.View.{expr_view, program_view, stmt_view};

mod done;
mod make_exprs;
mod make_lists;
mod make_stmts;
mod order;
mod pieces;

use crate::tree::{Expr, Program, Stmt};
use actx_data::{NoMemory, Twin};
use done::{Copied, put, take_expr, take_stmt, take_stmts};
use order::{Node, Work, nodes};
use std::alloc::Global;

/// Makes the copy of a node of the copies of its parts.
#[tactic(auto, using(crate::proofs::Made::expr_copied, crate::proofs::Made::stmt_copied))]
fn make(alloc: Global, node: Node, done: &mut Vec<Copied>) -> Result<(), NoMemory>
    ensures { OnOk result (copied done.new.items ≡ made node.entry (copied done.old.items)) }
{
    match node {
        Node::Expr(e) => {
            let copy = make_exprs::make_expr(alloc, e, done)?;
            put(done, Copied::Expr(copy))
        }
        Node::Stmt(st) => {
            let copy = make_stmts::make_stmt(alloc, st, done)?;
            put(done, Copied::Stmt(copy))
        }
        Node::NoExprs => put(done, Copied::Exprs(Vec::new(alloc))),
        Node::AddExpr => make_lists::add_to_exprs(done),
        Node::NoStmts => put(done, Copied::Stmts(Vec::new(alloc))),
        Node::AddStmt => make_lists::add_to_stmts(done),
        Node::NoProperties => put(done, Copied::Properties(Vec::new(alloc))),
        Node::AddProperty(property) => make_lists::add_to_properties(alloc, property, done),
        Node::NoLets => put(done, Copied::Lets(Vec::new(alloc))),
        Node::AddLet(item) => make_lists::add_to_lets(alloc, item, done),
        Node::NoConsts => put(done, Copied::Consts(Vec::new(alloc))),
        Node::AddConst(item) => make_lists::add_to_consts(alloc, item, done),
        Node::NoClauses => put(done, Copied::Clauses(Vec::new(alloc))),
        Node::AddClause(clause) => make_lists::add_to_clauses(clause, done),
    }
}

/// A copy of what is given.
#[tactic(auto, using(crate::proofs::Copied::built_last, crate::proofs::Copied::built_none, crate::proofs::Copied::copied_none))]
fn copy_of(alloc: Global, whole: Work) -> Result<Vec<Copied>, NoMemory>
    ensures { IfOk result (λ done. copied done.items ≡ work_seen whole.entry ∷ []) }
{
    let mut order = nodes(alloc, whole)?;
    let mut done = Vec::new(alloc);
    while let Some(node) = order.pop() {
        make(alloc, node, &mut done)?;
    }
    Ok(done)
}

impl Twin for Expr {
    ghost same = { λ a b. expr_view a ≡ expr_view b };

    fn copy(&self, alloc: Global) -> Result<Expr, NoMemory> {
        let mut done = copy_of(alloc, Work::Expr(self))?;
        take_expr(&mut done)
    }
}

impl Twin for Stmt {
    ghost same = { λ a b. stmt_view a ≡ stmt_view b };

    fn copy(&self, alloc: Global) -> Result<Stmt, NoMemory> {
        let mut done = copy_of(alloc, Work::Stmt(self))?;
        take_stmt(&mut done)
    }
}

impl Twin for Program {
    ghost same = { λ a b. program_view a ≡ program_view b };

    fn copy(&self, alloc: Global) -> Result<Program, NoMemory> {
        let mut done = copy_of(alloc, Work::Stmts(&self.body))?;
        let body = take_stmts(&mut done)?;
        Ok(Program { body })
    }
}
