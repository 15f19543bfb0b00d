//! Statements and what stands in them, taken apart.

ghost use Rattle.std.specs.Prelude.{◌≡◌, ◌≤◌, ◌<◌, ◌+◌, ℕ, All, IfSome, map, option_map};
ghost use Rattle.std.specs.Vec.{vec_capacity, vec_len};
ghost use Rattle.actx_ast.specs.Apart.{AllBelow, boxed_work, catcher_work, clause_work, const_work, expr_work, let_work, listed, maybe_work, stmt_work, weigh, weight};
ghost use Rattle.actx_ast.specs.declared.tree.Catcher.{size-Catcher};
ghost use Rattle.actx_ast.specs.declared.tree.Clause.{size-Clause};
ghost use Rattle.actx_ast.specs.declared.tree.ConstItem.{size-ConstItem};
ghost use Rattle.actx_ast.specs.declared.tree.Expr.{size-Expr};
ghost use Rattle.actx_ast.specs.declared.tree.LetItem.{size-LetItem};
ghost use Rattle.actx_ast.specs.declared.tree.Stmt.{size-Stmt};

use super::super::{Catcher, Clause, ConstItem, Expr, LetItem, Stmt};
use super::exprs::put_maybe_expr;
use super::{Part, ROOM, put};
use std::alloc::Global;

impl Stmt {
    fn allocator(&self) -> Option<Global> {
        match self {
            Stmt::Let(items) => Some(*items.allocator()),
            Stmt::Const(items) => Some(*items.allocator()),
            Stmt::Fun(f) => Some(*f.body.allocator()),
            Stmt::Block(stmts) => Some(*stmts.allocator()),
            Stmt::If(_, body, _)
            | Stmt::While(_, body)
            | Stmt::DoWhile(body, _)
            | Stmt::For(_, _, _, body)
            | Stmt::ForOf { body, .. }
            | Stmt::ForAwait { body, .. } => Some(*Box::allocator(body)),
            Stmt::Try { block, .. } => Some(*block.allocator()),
            Stmt::Switch(_, clauses) => Some(*clauses.allocator()),
            Stmt::Return(Some(e)) | Stmt::Throw(e) | Stmt::Value(e) => Some(*Box::allocator(e)),
            Stmt::Return(None) | Stmt::Break | Stmt::Continue | Stmt::Empty => None,
        }
    }

    /// An empty list with room for the parts, where there are any and there is memory.
    #[tactic(auto, using(crate::proofs::Parts::AllBelow_none))]
    pub(in crate::tree) fn room(&self) -> Option<Vec<Part>>
        ensures below { (n : ℕ) → IfSome result (λ v. AllBelow n v.items) }
        ensures room { IfSome result (λ v. 5 ≤ vec_capacity v) }
        ensures length { IfSome result (λ v. vec_len v ≡ 0) }
    {
        let alloc = self.allocator()?;
        Vec::with_capacity(alloc, ROOM).ok()
    }

    /// Destructures a statement, and keeps its parts.
    pub(in crate::tree) fn open(self, parts: &mut Vec<Part>)
        requires { vec_len parts.old + 4 ≤ vec_capacity parts.old }
        ensures below { (n : ℕ) → size-Stmt self ≤ n → AllBelow n parts.old.items → AllBelow n parts.new.items }
        ensures weight { weigh parts.new.items ≤ weigh parts.old.items + stmt_work self }
        ensures length { vec_len parts.new ≤ vec_len parts.old + 4 }
        ensures capacity { vec_capacity parts.new ≡ vec_capacity parts.old }
    {
        match self {
            Stmt::Let(items) => put(parts, Part::Lets(items)),
            Stmt::Const(items) => put(parts, Part::Consts(items)),
            Stmt::Fun(f) => f.open(parts),
            Stmt::Block(stmts) => put(parts, Part::Stmts(stmts)),
            Stmt::If(test, yes, no) => {
                put_both(test, yes, parts);
                put_maybe(no, parts);
            }
            Stmt::While(test, body) => put_both(test, body, parts),
            Stmt::DoWhile(body, test) => put_both(test, body, parts),
            Stmt::For(init, test, update, body) => {
                init.open(parts);
                put_maybe_expr(test, parts);
                put_maybe_expr(update, parts);
                put(parts, Part::Stmt(body));
            }
            Stmt::ForOf {
                constant: _,
                name: _,
                over,
                body,
            } => put_both(over, body, parts),
            Stmt::ForAwait {
                constant: _,
                name: _,
                over,
                body,
            } => put_both(over, body, parts),
            Stmt::Break => {}
            Stmt::Continue => {}
            Stmt::Return(value) => put_maybe_expr(value, parts),
            Stmt::Throw(value) => put(parts, Part::Expr(value)),
            Stmt::Try {
                block,
                catcher,
                last,
            } => {
                put(parts, Part::Stmts(block));
                open_catcher(catcher, parts);
                open_last(last, parts);
            }
            Stmt::Value(e) => put(parts, Part::Expr(e)),
            Stmt::Empty => {}
            Stmt::Switch(e, clauses) => {
                put(parts, Part::Expr(e));
                put(parts, Part::Clauses(clauses));
            }
        }
    }
}

fn put_both(test: Box<Expr>, body: Box<Stmt>, parts: &mut Vec<Part>)
    requires { vec_len parts.old + 2 ≤ vec_capacity parts.old }
    ensures below { (n : ℕ) → size-Expr test.value < n → size-Stmt body.value < n → AllBelow n parts.old.items → AllBelow n parts.new.items }
    ensures weight { weigh parts.new.items ≤ weigh parts.old.items + (2 + expr_work test.value + stmt_work body.value) }
    ensures length { vec_len parts.new ≡ vec_len parts.old + 2 }
    ensures capacity { vec_capacity parts.new ≡ vec_capacity parts.old }
{
    put(parts, Part::Expr(test));
    put(parts, Part::Stmt(body));
}

fn put_maybe(st: Option<Box<Stmt>>, parts: &mut Vec<Part>)
    requires { vec_len parts.old + 1 ≤ vec_capacity parts.old }
    ensures below { (n : ℕ) → IfSome st (λ b. size-Stmt b.value < n) → AllBelow n parts.old.items → AllBelow n parts.new.items }
    ensures weight { weigh parts.new.items ≤ weigh parts.old.items + boxed_work (option_map (λ b. stmt_work b.value) st) }
    ensures length { vec_len parts.new ≤ vec_len parts.old + 1 }
    ensures capacity { vec_capacity parts.new ≡ vec_capacity parts.old }
{
    if let Some(st) = st {
        put(parts, Part::Stmt(st));
    }
}

fn open_catcher(catcher: Option<Catcher>, parts: &mut Vec<Part>)
    requires { vec_len parts.old + 1 ≤ vec_capacity parts.old }
    ensures below { (n : ℕ) → IfSome catcher (λ c. size-Catcher c ≤ n) → AllBelow n parts.old.items → AllBelow n parts.new.items }
    ensures weight { weigh parts.new.items ≤ weigh parts.old.items + maybe_work (option_map catcher_work catcher) }
    ensures length { vec_len parts.new ≤ vec_len parts.old + 1 }
    ensures capacity { vec_capacity parts.new ≡ vec_capacity parts.old }
{
    if let Some(Catcher { name: _, body }) = catcher {
        put(parts, Part::Stmts(body));
    }
}

fn open_last(last: Option<Vec<Stmt>>, parts: &mut Vec<Part>)
    requires { vec_len parts.old + 1 ≤ vec_capacity parts.old }
    ensures below { (n : ℕ) → IfSome last (λ ss. All (λ st. size-Stmt st < n) ss.items) → AllBelow n parts.old.items → AllBelow n parts.new.items }
    ensures weight { weigh parts.new.items ≤ weigh parts.old.items + maybe_work (option_map (λ ss. listed (map stmt_work ss.items)) last) }
    ensures length { vec_len parts.new ≤ vec_len parts.old + 1 }
    ensures capacity { vec_capacity parts.new ≡ vec_capacity parts.old }
{
    if let Some(stmts) = last {
        put(parts, Part::Stmts(stmts));
    }
}

impl LetItem {
    pub(super) fn open(self, parts: &mut Vec<Part>)
        requires { vec_len parts.old + 1 ≤ vec_capacity parts.old }
        ensures below { (n : ℕ) → size-LetItem self ≤ n → AllBelow n parts.old.items → AllBelow n parts.new.items }
        ensures weight { weigh parts.new.items ≤ weigh parts.old.items + let_work self }
        ensures length { vec_len parts.new ≤ vec_len parts.old + 1 }
        ensures capacity { vec_capacity parts.new ≡ vec_capacity parts.old }
    {
        let LetItem { name: _, value } = self;
        put_maybe_expr(value, parts);
    }
}

impl ConstItem {
    pub(super) fn open(self, parts: &mut Vec<Part>)
        requires { vec_len parts.old + 3 ≤ vec_capacity parts.old }
        ensures below { (n : ℕ) → size-ConstItem self ≤ n → AllBelow n parts.old.items → AllBelow n parts.new.items }
        ensures weight { weigh parts.new.items ≤ weigh parts.old.items + const_work self }
        ensures length { vec_len parts.new ≤ vec_len parts.old + 3 }
        ensures capacity { vec_capacity parts.new ≡ vec_capacity parts.old }
    {
        let ConstItem { name: _, value } = self;
        value.open(parts);
    }
}

impl Clause {
    pub(super) fn open(self, parts: &mut Vec<Part>)
        requires { vec_len parts.old + 1 ≤ vec_capacity parts.old }
        ensures below { (n : ℕ) → size-Clause self ≤ n → AllBelow n parts.old.items → AllBelow n parts.new.items }
        ensures weight { weigh parts.new.items ≤ weigh parts.old.items + clause_work self }
        ensures length { vec_len parts.new ≤ vec_len parts.old + 1 }
        ensures capacity { vec_capacity parts.new ≡ vec_capacity parts.old }
    {
        let Clause { number: _, body } = self;
        put(parts, Part::Stmts(body));
    }
}
